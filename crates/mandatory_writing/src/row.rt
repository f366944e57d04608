// One mandatory row: whether its value fits, how long it is written, and writing it.
ghost use Rattle.std.specs.Prelude.{◌≡◌, true, ◌∷◌, ◌≤◌, ◌/◌, ◌%◌, length, get_or};
ghost use Rattle.definitions.specs.Basic.{over};
ghost use Rattle.definitions.specs.Mandatory.{low_half, low_bits, high_bits, fits_mandatory, encoded_row};
ghost use Rattle.rows.specs.Forms.{mandatory_form_as};
ghost use Rattle.mandatory_writing.specs.Writes.{encoded_size};

use copying::put_slice;
use rows::columns::MandatoryForm;

// The first octet of a value; 0 where there is none.
fn first(value: &[u8]) -> u8
    ensures { result ≡ get_or value.now 0 0 }
{
    if value.len() == 0 {
        return 0;
    }
    value[0]
}

// The four bits of a low half.
pub(crate) fn low_bits(value: &[u8]) -> u8
    ensures { (result ≡ low_bits (get_or value.now 0 0)) × (result ≤ 15) }
{
    first(value) % 16
}

// The four bits of a high half: of a received octet the top ones.
fn high_bits(source: u32, value: &[u8]) -> u8
    ensures { (result ≡ high_bits source (get_or value.now 0 0)) × (result ≤ 15) }
{
    if source == 1 {
        return first(value) / 16;
    }
    first(value) % 16
}

// Whether a half is one octet, from set octets of 0 to 15.
fn half_fits(source: u32, value: &[u8]) -> bool
    ensures { result ≡ fits_mandatory low_half source value.now }
{
    if value.len() != 1 {
        return false;
    }
    if source == 1 {
        return true;
    }
    value[0] <= 15
}

pub(crate) fn fits_mandatory(form: MandatoryForm, source: u32, value: &[u8]) -> bool
    ensures { result ≡ fits_mandatory (mandatory_form_as form) source value.now }
{
    match form {
        MandatoryForm::LowHalf => half_fits(source, value),
        MandatoryForm::HighHalf => half_fits(source, value),
        MandatoryForm::Fixed(n) => value.len() == n,
        MandatoryForm::Lv => value.len() <= 255,
        MandatoryForm::LvE => value.len() <= 65_535,
    }
}

// How many octets a value of so many is written as; a low half is written in the octet of its high half.
pub(crate) fn encoded_size(form: MandatoryForm, len: usize) -> usize
    requires { len ≤ 65535 }
    ensures { result ≡ encoded_size (mandatory_form_as form) len }
{
    match form {
        MandatoryForm::LowHalf => 0,
        MandatoryForm::HighHalf => 1,
        MandatoryForm::Fixed(_) => len,
        MandatoryForm::Lv => 1 + len,
        MandatoryForm::LvE => 2 + len,
    }
}

// A value behind its length of one octet.
fn put_lv(out: &mut [u8], value: &[u8])
    requires { (length value.now ≤ 255) × (length (length value.now ∷ value.now) ≤ length out.old) }
    ensures { out.new ≡ over (length value.now ∷ value.now) out.old }
{
    out[0] = value.len() as u8;
    put_slice(&mut out[1..], value);
}

// A value behind its length of two octets, the high one first.
fn put_lv_e(out: &mut [u8], value: &[u8])
    requires { (length value.now ≤ 65535) × (length (length value.now / 256 ∷ length value.now % 256 ∷ value.now) ≤ length out.old) }
    ensures { out.new ≡ over (length value.now / 256 ∷ length value.now % 256 ∷ value.now) out.old }
{
    out[0] = (value.len() / 256) as u8;
    out[1] = (value.len() % 256) as u8;
    put_slice(&mut out[2..], value);
}

// A row whose value fits into the front of the output; low is the low half that waits for a high one.
pub(crate) fn put_row(out: &mut [u8], form: MandatoryForm, low: u8, source: u32, value: &[u8])
    requires { (fits_mandatory (mandatory_form_as form) source value.now ≡ true) × (length (encoded_row (mandatory_form_as form) low source value.now) ≤ length out.old) × (low ≤ 15) }
    ensures { out.new ≡ over (encoded_row (mandatory_form_as form) low source value.now) out.old }
{
    match form {
        MandatoryForm::LowHalf => {}
        MandatoryForm::HighHalf => {
            let high = high_bits(source, value);
            out[0] = high * 16 + low;
        }
        MandatoryForm::Fixed(_) => put_slice(out, value),
        MandatoryForm::Lv => put_lv(out, value),
        MandatoryForm::LvE => put_lv_e(out, value),
    }
}
