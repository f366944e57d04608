// Table P, and the six real tables of TS 24.501, edition 16.8.0, as data in read-only memory: their rows after the message type, and the
// index of each table's IEIs. The words before a row name its element; docs/TABLES.md says where each number is from.
#![tactic(auto)]

ghost use Rattle.std.specs.Prelude.{◌≡◌, Some, option_copied};
ghost use Rattle.definitions.specs.Tables.{mandatory_table_of};
ghost use Rattle.real.specs.Real.{table_as};
ghost use Rattle.real.specs.Numbered.{IsNumbered};
ghost use Rattle.definitions.specs.Rows.{rows_of, first_bad, place_of, index};
ghost use Rattle.definitions.specs.Mandatory.{mandatory_rows_of, first_bad_mandatory};
ghost use Rattle.rows.specs.Answers.{place_as};
ghost use Rattle.checks.specs.Answers.{checked_as};
ghost use Rattle.real.specs.Real.{real_of, real_mandatory_of};

use checks::{BadRow, check_mandatory_table, check_table};
use rows::index::place_of;

// P has no mandatory row.
static NO_ROWS: [u32; 0] = [];

// Table P: five places.
pub static TABLE_P: [u32; 50] = [
    // place 0
    1, 0xc0, 0, 0, 0, 0, 0, 0, 1, 7,
    // place 1
    1, 0x10, 0, 0, 0, 2, 0, 3, 257, 255,
    // place 2
    1, 0x52, 0, 0, 0, 1, 2, 0, 3, 255,
    // place 3
    2, 0x2f, 0x31, 0, 0, 2, 0, 2, 257, 7,
    // place 4
    1, 0x77, 0, 0, 0, 3, 0, 3, 65_538, 255,
];

// Registration request, optional rows.
pub static REGISTRATION_REQUEST: [u32; 320] = [
    // non-current native nas key set identifier, 9.11.3.32
    1, 0xc0, 0, 0, 0, 0, 0, 1, 1, 65_535,
    // 5gmm capability, 9.11.3.1
    1, 0x10, 0, 0, 0, 2, 0, 3, 15, 255,
    // ue security capability, 9.11.3.54
    1, 0x2e, 0, 0, 0, 2, 0, 4, 10, 255,
    // requested nssai, 9.11.3.37
    1, 0x2f, 0, 0, 0, 2, 0, 4, 74, 255,
    // last visited registered tai, 9.11.3.8
    1, 0x52, 0, 0, 0, 1, 6, 7, 7, 255,
    // s1 ue network capability, 9.11.3.48
    1, 0x17, 0, 0, 0, 2, 0, 4, 15, 255,
    // uplink data status, 9.11.3.57
    1, 0x40, 0, 0, 0, 2, 0, 4, 34, 255,
    // pdu session status, 9.11.3.44
    1, 0x50, 0, 0, 0, 2, 0, 4, 34, 255,
    // mico indication, 9.11.3.31
    1, 0xb0, 0, 0, 0, 0, 0, 1, 1, 65_535,
    // ue status, 9.11.3.56
    1, 0x2b, 0, 0, 0, 2, 0, 3, 3, 255,
    // additional guti, 9.11.3.4
    1, 0x77, 0, 0, 0, 3, 0, 14, 14, 255,
    // allowed pdu session status, 9.11.3.13
    1, 0x25, 0, 0, 0, 2, 0, 4, 34, 255,
    // ue's usage setting, 9.11.3.55
    1, 0x18, 0, 0, 0, 2, 0, 3, 3, 255,
    // requested drx parameters, 9.11.3.2A
    1, 0x51, 0, 0, 0, 2, 0, 3, 3, 255,
    // eps nas message container, 9.11.3.24
    1, 0x70, 0, 0, 0, 3, 0, 4, 65_538, 255,
    // ladn indication, 9.11.3.29
    1, 0x74, 0, 0, 0, 3, 0, 3, 811, 255,
    // payload container type, 9.11.3.40
    1, 0x80, 0, 0, 0, 0, 0, 1, 1, 33_278,
    // payload container, 9.11.3.39
    1, 0x7b, 0, 0, 0, 3, 0, 4, 65_538, 255,
    // network slicing indication, 9.11.3.36
    1, 0x90, 0, 0, 0, 0, 0, 1, 1, 65_535,
    // 5gs update type, 9.11.3.9A
    1, 0x53, 0, 0, 0, 2, 0, 3, 3, 255,
    // mobile station classmark 2, 9.11.3.31C
    1, 0x41, 0, 0, 0, 2, 0, 5, 5, 255,
    // supported codecs, 9.11.3.51A
    1, 0x42, 0, 0, 0, 2, 0, 5, 257, 255,
    // nas message container, 9.11.3.33
    1, 0x71, 0, 0, 0, 3, 0, 4, 65_538, 255,
    // eps bearer context status, 9.11.3.23A
    1, 0x60, 0, 0, 0, 2, 0, 4, 4, 255,
    // requested extended drx parameters, 9.11.3.26A
    1, 0x6e, 0, 0, 0, 2, 0, 3, 3, 255,
    // t3324 value, 9.11.2.5
    1, 0x6a, 0, 0, 0, 2, 0, 3, 3, 255,
    // ue radio capability id, 9.11.3.68
    1, 0x67, 0, 0, 0, 2, 0, 3, 257, 255,
    // requested mapped nssai, 9.11.3.31B
    1, 0x35, 0, 0, 0, 2, 0, 3, 42, 255,
    // additional information requested, 9.11.3.12A
    1, 0x48, 0, 0, 0, 2, 0, 3, 3, 255,
    // requested wus assistance information, 9.11.3.71
    1, 0x1a, 0, 0, 0, 2, 0, 3, 257, 255,
    // n5gc indication, 9.11.3.72
    1, 0xa0, 0, 0, 0, 0, 0, 1, 1, 65_535,
    // requested nb-n1 mode drx parameters, 9.11.3.73
    1, 0x30, 0, 0, 0, 2, 0, 3, 3, 255,
];

// Registration request, mandatory rows.
pub static REGISTRATION_REQUEST_MANDATORY: [u32; 12] = [
    // 5gs registration type, 9.11.3.7
    0, 0, 0, 32_639,
    // ngksi, 9.11.3.32
    1, 0, 0, 65_535,
    // 5gs mobile identity, 9.11.3.4
    4, 0, 6, 255,
];

// Registration accept, optional rows.
pub static REGISTRATION_ACCEPT: [u32; 390] = [
    // 5g-guti, 9.11.3.4
    1, 0x77, 0, 0, 0, 3, 0, 14, 14, 255,
    // equivalent plmns, 9.11.3.45
    1, 0x4a, 0, 0, 0, 2, 0, 5, 47, 255,
    // tai list, 9.11.3.9
    1, 0x54, 0, 0, 0, 2, 0, 9, 114, 255,
    // allowed nssai, 9.11.3.37
    1, 0x15, 0, 0, 0, 2, 0, 4, 74, 255,
    // rejected nssai, 9.11.3.46
    1, 0x11, 0, 0, 0, 2, 0, 4, 42, 255,
    // configured nssai, 9.11.3.37
    1, 0x31, 0, 0, 0, 2, 0, 4, 146, 255,
    // 5gs network feature support, 9.11.3.5
    1, 0x21, 0, 0, 0, 2, 0, 3, 5, 255,
    // pdu session status, 9.11.3.44
    1, 0x50, 0, 0, 0, 2, 0, 4, 34, 255,
    // pdu session reactivation result, 9.11.3.42
    1, 0x26, 0, 0, 0, 2, 0, 4, 34, 255,
    // pdu session reactivation result error cause, 9.11.3.43
    1, 0x72, 0, 0, 0, 3, 0, 5, 515, 255,
    // ladn information, 9.11.3.30
    1, 0x79, 0, 0, 0, 3, 0, 12, 1715, 255,
    // mico indication, 9.11.3.31
    1, 0xb0, 0, 0, 0, 0, 0, 1, 1, 65_535,
    // network slicing indication, 9.11.3.36
    1, 0x90, 0, 0, 0, 0, 0, 1, 1, 65_535,
    // service area list, 9.11.3.49
    1, 0x27, 0, 0, 0, 2, 0, 6, 114, 255,
    // t3512 value, 9.11.2.5
    1, 0x5e, 0, 0, 0, 2, 0, 3, 3, 255,
    // non-3gpp de-registration timer value, 9.11.2.4
    1, 0x5d, 0, 0, 0, 2, 0, 3, 3, 255,
    // t3502 value, 9.11.2.4
    1, 0x16, 0, 0, 0, 2, 0, 3, 3, 255,
    // emergency number list, 9.11.3.23
    1, 0x34, 0, 0, 0, 2, 0, 5, 50, 255,
    // extended emergency number list, 9.11.3.26
    1, 0x7a, 0, 0, 0, 3, 0, 7, 65_538, 255,
    // sor transparent container, 9.11.3.51
    1, 0x73, 0, 0, 0, 3, 0, 20, 65_538, 255,
    // eap message, 9.11.2.2
    1, 0x78, 0, 0, 0, 3, 0, 7, 1503, 255,
    // nssai inclusion mode, 9.11.3.37A
    1, 0xa0, 0, 0, 0, 0, 0, 1, 1, 65_535,
    // operator-defined access category definitions, 9.11.3.38
    1, 0x76, 0, 0, 0, 3, 0, 3, 8323, 255,
    // negotiated drx parameters, 9.11.3.2A
    1, 0x51, 0, 0, 0, 2, 0, 3, 3, 255,
    // non-3gpp nw policies, 9.11.3.36A
    1, 0xd0, 0, 0, 0, 0, 0, 1, 1, 65_535,
    // eps bearer context status, 9.11.3.23A
    1, 0x60, 0, 0, 0, 2, 0, 4, 4, 255,
    // negotiated extended drx parameters, 9.11.3.26A
    1, 0x6e, 0, 0, 0, 2, 0, 3, 3, 255,
    // t3447 value, 9.11.2.5
    1, 0x6c, 0, 0, 0, 2, 0, 3, 3, 255,
    // t3448 value, 9.11.2.4
    1, 0x6b, 0, 0, 0, 2, 0, 3, 3, 255,
    // t3324 value, 9.11.2.5
    1, 0x6a, 0, 0, 0, 2, 0, 3, 3, 255,
    // ue radio capability id, 9.11.3.68
    1, 0x67, 0, 0, 0, 2, 0, 3, 257, 255,
    // ue radio capability id deletion indication, 9.11.3.69
    1, 0xe0, 0, 0, 0, 0, 0, 1, 1, 65_535,
    // pending nssai, 9.11.3.37
    1, 0x39, 0, 0, 0, 2, 0, 4, 146, 255,
    // ciphering key data, 9.11.3.18C
    1, 0x74, 0, 0, 0, 3, 0, 34, 65_538, 255,
    // cag information list, 9.11.3.18A
    1, 0x75, 0, 0, 0, 3, 0, 3, 65_538, 255,
    // truncated 5g-s-tmsi configuration, 9.11.3.70
    1, 0x1b, 0, 0, 0, 2, 0, 3, 3, 255,
    // negotiated wus assistance information, 9.11.3.71
    1, 0x1c, 0, 0, 0, 2, 0, 3, 257, 255,
    // negotiated nb-n1 mode drx parameters, 9.11.3.73
    1, 0x29, 0, 0, 0, 2, 0, 3, 3, 255,
    // extended rejected nssai, 9.11.3.75
    1, 0x68, 0, 0, 0, 2, 0, 4, 74, 255,
];

// Registration accept, mandatory rows.
pub static REGISTRATION_ACCEPT_MANDATORY: [u32; 4] = [
    // 5gs registration result, 9.11.3.6
    3, 0, 2, 255,
];

// Registration reject, optional rows.
pub static REGISTRATION_REJECT: [u32; 60] = [
    // t3346 value, 9.11.2.4
    1, 0x5f, 0, 0, 0, 2, 0, 3, 3, 255,
    // t3502 value, 9.11.2.4
    1, 0x16, 0, 0, 0, 2, 0, 3, 3, 255,
    // eap message, 9.11.2.2
    1, 0x78, 0, 0, 0, 3, 0, 7, 1503, 255,
    // rejected nssai, 9.11.3.46
    1, 0x69, 0, 0, 0, 2, 0, 4, 42, 255,
    // cag information list, 9.11.3.18A
    1, 0x75, 0, 0, 0, 3, 0, 3, 65_538, 255,
    // extended rejected nssai, 9.11.3.75
    1, 0x68, 0, 0, 0, 2, 0, 4, 74, 255,
];

// Registration reject, mandatory rows.
pub static REGISTRATION_REJECT_MANDATORY: [u32; 4] = [
    // 5gmm cause, 9.11.3.2
    2, 1, 1, 255,
];

// Service request, optional rows.
pub static SERVICE_REQUEST: [u32; 40] = [
    // uplink data status, 9.11.3.57
    1, 0x40, 0, 0, 0, 2, 0, 4, 34, 255,
    // pdu session status, 9.11.3.44
    1, 0x50, 0, 0, 0, 2, 0, 4, 34, 255,
    // allowed pdu session status, 9.11.3.13
    1, 0x25, 0, 0, 0, 2, 0, 4, 34, 255,
    // nas message container, 9.11.3.33
    1, 0x71, 0, 0, 0, 3, 0, 4, 65_538, 255,
];

// Service request, mandatory rows.
pub static SERVICE_REQUEST_MANDATORY: [u32; 12] = [
    // ngksi, 9.11.3.32
    0, 0, 0, 65_535,
    // service type, 9.11.3.50
    1, 0, 0, 4_095,
    // 5g-s-tmsi, 9.11.3.4
    4, 0, 9, 255,
];

// PDU session establishment request, optional rows.
pub static PDU_SESSION_ESTABLISHMENT_REQUEST: [u32; 130] = [
    // pdu session type, 9.11.4.11
    1, 0x90, 0, 0, 0, 0, 0, 1, 1, 32_639,
    // ssc mode, 9.11.4.16
    1, 0xa0, 0, 0, 0, 0, 0, 1, 1, 32_382,
    // 5gsm capability, 9.11.4.1
    1, 0x28, 0, 0, 0, 2, 0, 3, 15, 255,
    // maximum number of supported packet filters, 9.11.4.9
    1, 0x55, 0, 0, 0, 1, 2, 3, 3, 255,
    // always-on pdu session requested, 9.11.4.4
    1, 0xb0, 0, 0, 0, 0, 0, 1, 1, 65_535,
    // sm pdu dn request container, 9.11.4.15
    1, 0x39, 0, 0, 0, 2, 0, 3, 255, 255,
    // extended protocol configuration options, 9.11.4.6
    1, 0x7b, 0, 0, 0, 3, 0, 4, 65_538, 255,
    // ip header compression configuration, 9.11.4.24
    1, 0x66, 0, 0, 0, 2, 0, 5, 257, 255,
    // ds-tt ethernet port mac address, 9.11.4.25
    1, 0x6e, 0, 0, 0, 2, 0, 8, 8, 255,
    // ue-ds-tt residence time, 9.11.4.26
    1, 0x6f, 0, 0, 0, 2, 0, 10, 10, 255,
    // port management information container, 9.11.4.27
    1, 0x74, 0, 0, 0, 3, 0, 8, 65_538, 255,
    // ethernet header compression configuration, 9.11.4.28
    1, 0x1f, 0, 0, 0, 2, 0, 3, 3, 255,
    // suggested interface identifier, 9.11.4.10
    1, 0x29, 0, 0, 0, 2, 0, 11, 11, 255,
];

// PDU session establishment request, mandatory rows.
pub static PDU_SESSION_ESTABLISHMENT_REQUEST_MANDATORY: [u32; 4] = [
    // integrity protection maximum data rate, 9.11.4.7
    2, 2, 2, 255,
];

// PDU session establishment accept, optional rows.
pub static PDU_SESSION_ESTABLISHMENT_ACCEPT: [u32; 160] = [
    // 5gsm cause, 9.11.4.2
    1, 0x59, 0, 0, 0, 1, 1, 2, 2, 255,
    // pdu address, 9.11.4.10
    1, 0x29, 0, 0, 0, 2, 0, 7, 31, 255,
    // rq timer value, 9.11.2.3
    1, 0x56, 0, 0, 0, 1, 1, 2, 2, 255,
    // s-nssai, 9.11.2.8
    1, 0x22, 0, 0, 0, 2, 0, 3, 10, 255,
    // always-on pdu session indication, 9.11.4.3
    1, 0x80, 0, 0, 0, 0, 0, 1, 1, 65_535,
    // mapped eps bearer contexts, 9.11.4.8
    1, 0x75, 0, 0, 0, 3, 0, 7, 65_538, 255,
    // eap message, 9.11.2.2
    1, 0x78, 0, 0, 0, 3, 0, 7, 1503, 255,
    // authorized qos flow descriptions, 9.11.4.12
    1, 0x79, 0, 0, 0, 3, 0, 6, 65_538, 255,
    // extended protocol configuration options, 9.11.4.6
    1, 0x7b, 0, 0, 0, 3, 0, 4, 65_538, 255,
    // dnn, 9.11.2.1B
    1, 0x25, 0, 0, 0, 2, 0, 3, 102, 255,
    // 5gsm network feature support, 9.11.4.18
    1, 0x17, 0, 0, 0, 2, 0, 3, 15, 255,
    // serving plmn rate control, 9.11.4.20
    1, 0x18, 0, 0, 0, 2, 0, 4, 4, 255,
    // atsss container, 9.11.4.22
    1, 0x77, 0, 0, 0, 3, 0, 3, 65_538, 255,
    // control plane only indication, 9.11.4.23
    1, 0xc0, 0, 0, 0, 0, 0, 1, 1, 43_690,
    // ip header compression configuration, 9.11.4.24
    1, 0x66, 0, 0, 0, 2, 0, 5, 257, 255,
    // ethernet header compression configuration, 9.11.4.28
    1, 0x1f, 0, 0, 0, 2, 0, 3, 3, 255,
];

// PDU session establishment accept, mandatory rows.
pub static PDU_SESSION_ESTABLISHMENT_ACCEPT_MANDATORY: [u32; 16] = [
    // selected pdu session type, 9.11.4.11
    0, 0, 0, 32_639,
    // selected ssc mode, 9.11.4.16
    1, 0, 0, 32_382,
    // authorized qos rules, 9.11.4.13
    4, 0, 6, 255,
    // session ambr, 9.11.4.14
    3, 0, 7, 255,
];

// The index of table P.
pub static INDEX_P: [u8; 256] = [
    // from 0x00 on
    255, 255, 255, 255, 255, 255, 255, 255, 255, 255, 255, 255, 255, 255, 255, 255,
    // from 0x10 on
    1, 255, 255, 255, 255, 255, 255, 255, 255, 255, 255, 255, 255, 255, 255, 255,
    // from 0x20 on
    255, 255, 255, 255, 255, 255, 255, 255, 255, 255, 255, 255, 255, 255, 255, 3,
    // from 0x30 on
    255, 3, 255, 255, 255, 255, 255, 255, 255, 255, 255, 255, 255, 255, 255, 255,
    // from 0x40 on
    255, 255, 255, 255, 255, 255, 255, 255, 255, 255, 255, 255, 255, 255, 255, 255,
    // from 0x50 on
    255, 255, 2, 255, 255, 255, 255, 255, 255, 255, 255, 255, 255, 255, 255, 255,
    // from 0x60 on
    255, 255, 255, 255, 255, 255, 255, 255, 255, 255, 255, 255, 255, 255, 255, 255,
    // from 0x70 on
    255, 255, 255, 255, 255, 255, 255, 4, 255, 255, 255, 255, 255, 255, 255, 255,
    // from 0x80 on
    255, 255, 255, 255, 255, 255, 255, 255, 255, 255, 255, 255, 255, 255, 255, 255,
    // from 0x90 on
    255, 255, 255, 255, 255, 255, 255, 255, 255, 255, 255, 255, 255, 255, 255, 255,
    // from 0xa0 on
    255, 255, 255, 255, 255, 255, 255, 255, 255, 255, 255, 255, 255, 255, 255, 255,
    // from 0xb0 on
    255, 255, 255, 255, 255, 255, 255, 255, 255, 255, 255, 255, 255, 255, 255, 255,
    // from 0xc0 on
    0, 255, 255, 255, 255, 255, 255, 255, 255, 255, 255, 255, 255, 255, 255, 255,
    // from 0xd0 on
    255, 255, 255, 255, 255, 255, 255, 255, 255, 255, 255, 255, 255, 255, 255, 255,
    // from 0xe0 on
    255, 255, 255, 255, 255, 255, 255, 255, 255, 255, 255, 255, 255, 255, 255, 255,
    // from 0xf0 on
    255, 255, 255, 255, 255, 255, 255, 255, 255, 255, 255, 255, 255, 255, 255, 255,
];

// The index of registration request.
pub static INDEX_REGISTRATION_REQUEST: [u8; 256] = [
    // from 0x00 on
    255, 255, 255, 255, 255, 255, 255, 255, 255, 255, 255, 255, 255, 255, 255, 255,
    // from 0x10 on
    1, 255, 255, 255, 255, 255, 255, 5, 12, 255, 29, 255, 255, 255, 255, 255,
    // from 0x20 on
    255, 255, 255, 255, 255, 11, 255, 255, 255, 255, 255, 9, 255, 255, 2, 3,
    // from 0x30 on
    31, 255, 255, 255, 255, 27, 255, 255, 255, 255, 255, 255, 255, 255, 255, 255,
    // from 0x40 on
    6, 20, 21, 255, 255, 255, 255, 255, 28, 255, 255, 255, 255, 255, 255, 255,
    // from 0x50 on
    7, 13, 4, 19, 255, 255, 255, 255, 255, 255, 255, 255, 255, 255, 255, 255,
    // from 0x60 on
    23, 255, 255, 255, 255, 255, 255, 26, 255, 255, 25, 255, 255, 255, 24, 255,
    // from 0x70 on
    14, 22, 255, 255, 15, 255, 255, 10, 255, 255, 255, 17, 255, 255, 255, 255,
    // from 0x80 on
    16, 255, 255, 255, 255, 255, 255, 255, 255, 255, 255, 255, 255, 255, 255, 255,
    // from 0x90 on
    18, 255, 255, 255, 255, 255, 255, 255, 255, 255, 255, 255, 255, 255, 255, 255,
    // from 0xa0 on
    30, 255, 255, 255, 255, 255, 255, 255, 255, 255, 255, 255, 255, 255, 255, 255,
    // from 0xb0 on
    8, 255, 255, 255, 255, 255, 255, 255, 255, 255, 255, 255, 255, 255, 255, 255,
    // from 0xc0 on
    0, 255, 255, 255, 255, 255, 255, 255, 255, 255, 255, 255, 255, 255, 255, 255,
    // from 0xd0 on
    255, 255, 255, 255, 255, 255, 255, 255, 255, 255, 255, 255, 255, 255, 255, 255,
    // from 0xe0 on
    255, 255, 255, 255, 255, 255, 255, 255, 255, 255, 255, 255, 255, 255, 255, 255,
    // from 0xf0 on
    255, 255, 255, 255, 255, 255, 255, 255, 255, 255, 255, 255, 255, 255, 255, 255,
];

// The index of registration accept.
pub static INDEX_REGISTRATION_ACCEPT: [u8; 256] = [
    // from 0x00 on
    255, 255, 255, 255, 255, 255, 255, 255, 255, 255, 255, 255, 255, 255, 255, 255,
    // from 0x10 on
    255, 4, 255, 255, 255, 3, 16, 255, 255, 255, 255, 35, 36, 255, 255, 255,
    // from 0x20 on
    255, 6, 255, 255, 255, 255, 8, 13, 255, 37, 255, 255, 255, 255, 255, 255,
    // from 0x30 on
    255, 5, 255, 255, 17, 255, 255, 255, 255, 32, 255, 255, 255, 255, 255, 255,
    // from 0x40 on
    255, 255, 255, 255, 255, 255, 255, 255, 255, 255, 1, 255, 255, 255, 255, 255,
    // from 0x50 on
    7, 23, 255, 255, 2, 255, 255, 255, 255, 255, 255, 255, 255, 15, 14, 255,
    // from 0x60 on
    25, 255, 255, 255, 255, 255, 255, 30, 38, 255, 29, 28, 27, 255, 26, 255,
    // from 0x70 on
    255, 255, 9, 19, 33, 34, 22, 0, 20, 10, 18, 255, 255, 255, 255, 255,
    // from 0x80 on
    255, 255, 255, 255, 255, 255, 255, 255, 255, 255, 255, 255, 255, 255, 255, 255,
    // from 0x90 on
    12, 255, 255, 255, 255, 255, 255, 255, 255, 255, 255, 255, 255, 255, 255, 255,
    // from 0xa0 on
    21, 255, 255, 255, 255, 255, 255, 255, 255, 255, 255, 255, 255, 255, 255, 255,
    // from 0xb0 on
    11, 255, 255, 255, 255, 255, 255, 255, 255, 255, 255, 255, 255, 255, 255, 255,
    // from 0xc0 on
    255, 255, 255, 255, 255, 255, 255, 255, 255, 255, 255, 255, 255, 255, 255, 255,
    // from 0xd0 on
    24, 255, 255, 255, 255, 255, 255, 255, 255, 255, 255, 255, 255, 255, 255, 255,
    // from 0xe0 on
    31, 255, 255, 255, 255, 255, 255, 255, 255, 255, 255, 255, 255, 255, 255, 255,
    // from 0xf0 on
    255, 255, 255, 255, 255, 255, 255, 255, 255, 255, 255, 255, 255, 255, 255, 255,
];

// The index of registration reject.
pub static INDEX_REGISTRATION_REJECT: [u8; 256] = [
    // from 0x00 on
    255, 255, 255, 255, 255, 255, 255, 255, 255, 255, 255, 255, 255, 255, 255, 255,
    // from 0x10 on
    255, 255, 255, 255, 255, 255, 1, 255, 255, 255, 255, 255, 255, 255, 255, 255,
    // from 0x20 on
    255, 255, 255, 255, 255, 255, 255, 255, 255, 255, 255, 255, 255, 255, 255, 255,
    // from 0x30 on
    255, 255, 255, 255, 255, 255, 255, 255, 255, 255, 255, 255, 255, 255, 255, 255,
    // from 0x40 on
    255, 255, 255, 255, 255, 255, 255, 255, 255, 255, 255, 255, 255, 255, 255, 255,
    // from 0x50 on
    255, 255, 255, 255, 255, 255, 255, 255, 255, 255, 255, 255, 255, 255, 255, 0,
    // from 0x60 on
    255, 255, 255, 255, 255, 255, 255, 255, 5, 3, 255, 255, 255, 255, 255, 255,
    // from 0x70 on
    255, 255, 255, 255, 255, 4, 255, 255, 2, 255, 255, 255, 255, 255, 255, 255,
    // from 0x80 on
    255, 255, 255, 255, 255, 255, 255, 255, 255, 255, 255, 255, 255, 255, 255, 255,
    // from 0x90 on
    255, 255, 255, 255, 255, 255, 255, 255, 255, 255, 255, 255, 255, 255, 255, 255,
    // from 0xa0 on
    255, 255, 255, 255, 255, 255, 255, 255, 255, 255, 255, 255, 255, 255, 255, 255,
    // from 0xb0 on
    255, 255, 255, 255, 255, 255, 255, 255, 255, 255, 255, 255, 255, 255, 255, 255,
    // from 0xc0 on
    255, 255, 255, 255, 255, 255, 255, 255, 255, 255, 255, 255, 255, 255, 255, 255,
    // from 0xd0 on
    255, 255, 255, 255, 255, 255, 255, 255, 255, 255, 255, 255, 255, 255, 255, 255,
    // from 0xe0 on
    255, 255, 255, 255, 255, 255, 255, 255, 255, 255, 255, 255, 255, 255, 255, 255,
    // from 0xf0 on
    255, 255, 255, 255, 255, 255, 255, 255, 255, 255, 255, 255, 255, 255, 255, 255,
];

// The index of service request.
pub static INDEX_SERVICE_REQUEST: [u8; 256] = [
    // from 0x00 on
    255, 255, 255, 255, 255, 255, 255, 255, 255, 255, 255, 255, 255, 255, 255, 255,
    // from 0x10 on
    255, 255, 255, 255, 255, 255, 255, 255, 255, 255, 255, 255, 255, 255, 255, 255,
    // from 0x20 on
    255, 255, 255, 255, 255, 2, 255, 255, 255, 255, 255, 255, 255, 255, 255, 255,
    // from 0x30 on
    255, 255, 255, 255, 255, 255, 255, 255, 255, 255, 255, 255, 255, 255, 255, 255,
    // from 0x40 on
    0, 255, 255, 255, 255, 255, 255, 255, 255, 255, 255, 255, 255, 255, 255, 255,
    // from 0x50 on
    1, 255, 255, 255, 255, 255, 255, 255, 255, 255, 255, 255, 255, 255, 255, 255,
    // from 0x60 on
    255, 255, 255, 255, 255, 255, 255, 255, 255, 255, 255, 255, 255, 255, 255, 255,
    // from 0x70 on
    255, 3, 255, 255, 255, 255, 255, 255, 255, 255, 255, 255, 255, 255, 255, 255,
    // from 0x80 on
    255, 255, 255, 255, 255, 255, 255, 255, 255, 255, 255, 255, 255, 255, 255, 255,
    // from 0x90 on
    255, 255, 255, 255, 255, 255, 255, 255, 255, 255, 255, 255, 255, 255, 255, 255,
    // from 0xa0 on
    255, 255, 255, 255, 255, 255, 255, 255, 255, 255, 255, 255, 255, 255, 255, 255,
    // from 0xb0 on
    255, 255, 255, 255, 255, 255, 255, 255, 255, 255, 255, 255, 255, 255, 255, 255,
    // from 0xc0 on
    255, 255, 255, 255, 255, 255, 255, 255, 255, 255, 255, 255, 255, 255, 255, 255,
    // from 0xd0 on
    255, 255, 255, 255, 255, 255, 255, 255, 255, 255, 255, 255, 255, 255, 255, 255,
    // from 0xe0 on
    255, 255, 255, 255, 255, 255, 255, 255, 255, 255, 255, 255, 255, 255, 255, 255,
    // from 0xf0 on
    255, 255, 255, 255, 255, 255, 255, 255, 255, 255, 255, 255, 255, 255, 255, 255,
];

// The index of PDU session establishment request.
pub static INDEX_PDU_SESSION_ESTABLISHMENT_REQUEST: [u8; 256] = [
    // from 0x00 on
    255, 255, 255, 255, 255, 255, 255, 255, 255, 255, 255, 255, 255, 255, 255, 255,
    // from 0x10 on
    255, 255, 255, 255, 255, 255, 255, 255, 255, 255, 255, 255, 255, 255, 255, 11,
    // from 0x20 on
    255, 255, 255, 255, 255, 255, 255, 255, 2, 12, 255, 255, 255, 255, 255, 255,
    // from 0x30 on
    255, 255, 255, 255, 255, 255, 255, 255, 255, 5, 255, 255, 255, 255, 255, 255,
    // from 0x40 on
    255, 255, 255, 255, 255, 255, 255, 255, 255, 255, 255, 255, 255, 255, 255, 255,
    // from 0x50 on
    255, 255, 255, 255, 255, 3, 255, 255, 255, 255, 255, 255, 255, 255, 255, 255,
    // from 0x60 on
    255, 255, 255, 255, 255, 255, 7, 255, 255, 255, 255, 255, 255, 255, 8, 9,
    // from 0x70 on
    255, 255, 255, 255, 10, 255, 255, 255, 255, 255, 255, 6, 255, 255, 255, 255,
    // from 0x80 on
    255, 255, 255, 255, 255, 255, 255, 255, 255, 255, 255, 255, 255, 255, 255, 255,
    // from 0x90 on
    0, 255, 255, 255, 255, 255, 255, 255, 255, 255, 255, 255, 255, 255, 255, 255,
    // from 0xa0 on
    1, 255, 255, 255, 255, 255, 255, 255, 255, 255, 255, 255, 255, 255, 255, 255,
    // from 0xb0 on
    4, 255, 255, 255, 255, 255, 255, 255, 255, 255, 255, 255, 255, 255, 255, 255,
    // from 0xc0 on
    255, 255, 255, 255, 255, 255, 255, 255, 255, 255, 255, 255, 255, 255, 255, 255,
    // from 0xd0 on
    255, 255, 255, 255, 255, 255, 255, 255, 255, 255, 255, 255, 255, 255, 255, 255,
    // from 0xe0 on
    255, 255, 255, 255, 255, 255, 255, 255, 255, 255, 255, 255, 255, 255, 255, 255,
    // from 0xf0 on
    255, 255, 255, 255, 255, 255, 255, 255, 255, 255, 255, 255, 255, 255, 255, 255,
];

// The index of PDU session establishment accept.
pub static INDEX_PDU_SESSION_ESTABLISHMENT_ACCEPT: [u8; 256] = [
    // from 0x00 on
    255, 255, 255, 255, 255, 255, 255, 255, 255, 255, 255, 255, 255, 255, 255, 255,
    // from 0x10 on
    255, 255, 255, 255, 255, 255, 255, 10, 11, 255, 255, 255, 255, 255, 255, 15,
    // from 0x20 on
    255, 255, 3, 255, 255, 9, 255, 255, 255, 1, 255, 255, 255, 255, 255, 255,
    // from 0x30 on
    255, 255, 255, 255, 255, 255, 255, 255, 255, 255, 255, 255, 255, 255, 255, 255,
    // from 0x40 on
    255, 255, 255, 255, 255, 255, 255, 255, 255, 255, 255, 255, 255, 255, 255, 255,
    // from 0x50 on
    255, 255, 255, 255, 255, 255, 2, 255, 255, 0, 255, 255, 255, 255, 255, 255,
    // from 0x60 on
    255, 255, 255, 255, 255, 255, 14, 255, 255, 255, 255, 255, 255, 255, 255, 255,
    // from 0x70 on
    255, 255, 255, 255, 255, 5, 255, 12, 6, 7, 255, 8, 255, 255, 255, 255,
    // from 0x80 on
    4, 255, 255, 255, 255, 255, 255, 255, 255, 255, 255, 255, 255, 255, 255, 255,
    // from 0x90 on
    255, 255, 255, 255, 255, 255, 255, 255, 255, 255, 255, 255, 255, 255, 255, 255,
    // from 0xa0 on
    255, 255, 255, 255, 255, 255, 255, 255, 255, 255, 255, 255, 255, 255, 255, 255,
    // from 0xb0 on
    255, 255, 255, 255, 255, 255, 255, 255, 255, 255, 255, 255, 255, 255, 255, 255,
    // from 0xc0 on
    13, 255, 255, 255, 255, 255, 255, 255, 255, 255, 255, 255, 255, 255, 255, 255,
    // from 0xd0 on
    255, 255, 255, 255, 255, 255, 255, 255, 255, 255, 255, 255, 255, 255, 255, 255,
    // from 0xe0 on
    255, 255, 255, 255, 255, 255, 255, 255, 255, 255, 255, 255, 255, 255, 255, 255,
    // from 0xf0 on
    255, 255, 255, 255, 255, 255, 255, 255, 255, 255, 255, 255, 255, 255, 255, 255,
];

// ---- by table number: 0 is P, 1 to 6 the real tables; another number names no table

// The start number of the long form, of all of them.
pub const TLVE_START: u8 = 0x70;

// The rows of a table and their index.
#[derive(Clone, Copy)]
pub struct Table {
    pub rows: &'static [u32],
    pub index: &'static [u8; 256],
}

fn numbered_by(rows: &'static [u32], index: &'static [u8; 256]) -> Option<Table>
    ensures { result ≡ Some (record { rows = rows.entry; index = index.entry }) }
{
    Some(Table { rows, index })
}

// The table that a number names.
pub fn numbered(number: u32) -> Option<Table>
    ensures { IsNumbered number result }
{
    match number {
        0 => numbered_by(&TABLE_P, &INDEX_P),
        1 => numbered_by(&REGISTRATION_REQUEST, &INDEX_REGISTRATION_REQUEST),
        2 => numbered_by(&REGISTRATION_ACCEPT, &INDEX_REGISTRATION_ACCEPT),
        3 => numbered_by(&REGISTRATION_REJECT, &INDEX_REGISTRATION_REJECT),
        4 => numbered_by(&SERVICE_REQUEST, &INDEX_SERVICE_REQUEST),
        5 => numbered_by(
            &PDU_SESSION_ESTABLISHMENT_REQUEST,
            &INDEX_PDU_SESSION_ESTABLISHMENT_REQUEST,
        ),
        6 => numbered_by(
            &PDU_SESSION_ESTABLISHMENT_ACCEPT,
            &INDEX_PDU_SESSION_ESTABLISHMENT_ACCEPT,
        ),
        _ => None,
    }
}

// The mandatory rows of the message that a number names; P has none.
pub fn mandatory(number: u32) -> Option<&'static [u32]>
    ensures { option_copied result ≡ table_as (mandatory_table_of number) }
{
    match number {
        0 => Some(&NO_ROWS),
        1 => Some(&REGISTRATION_REQUEST_MANDATORY),
        2 => Some(&REGISTRATION_ACCEPT_MANDATORY),
        3 => Some(&REGISTRATION_REJECT_MANDATORY),
        4 => Some(&SERVICE_REQUEST_MANDATORY),
        5 => Some(&PDU_SESSION_ESTABLISHMENT_REQUEST_MANDATORY),
        6 => Some(&PDU_SESSION_ESTABLISHMENT_ACCEPT_MANDATORY),
        7.. => None,
    }
}

// A number as small as those that name a table, or 7, which names none.
fn small(number: usize) -> u32
    ensures same_rows { real_of result ≡ real_of number }
    ensures same_mandatory { real_mandatory_of result ≡ real_mandatory_of number }
{
    if number > 6 {
        return 7;
    }
    number as u32
}

// Whether a table passes; proofs/RealLaws.antt shows that each does. One that no number names has no row.
pub fn check_real(number: usize) -> Result<(), BadRow>
    ensures { checked_as result ≡ first_bad (rows_of (real_of number)) }
{
    match numbered(small(number)) {
        Some(table) => check_table(table.rows),
        None => Ok(()),
    }
}

pub fn check_real_mandatory(number: usize) -> Result<(), BadRow>
    ensures { checked_as result ≡ first_bad_mandatory (mandatory_rows_of (real_mandatory_of number)) }
{
    match mandatory(small(number)) {
        Some(rows) => check_mandatory_table(rows),
        None => Ok(()),
    }
}

// The place of an IEI, by the table's constant index.
pub fn place_real(number: usize, iei: u8) -> Option<usize>
    ensures { place_as result ≡ place_of (rows_of (real_of number)) iei }
{
    let table = numbered(small(number))?;
    let index = table.index;
    place_of(index, iei)
}
