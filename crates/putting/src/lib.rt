// One element into the rest of the output: its IEI, its length field, its value. Each function puts the element where its value fits its
// form, the octet of a half octet can hold it beside its IEI, and there is room; it says how many octets the element takes.
#![tactic(auto)]

ghost use Rattle.std.specs.Prelude.{◌≡◌, ◌||◌, ◌<◌, ◌≤◌, ◌++◌, eqb, leb, length};
ghost use Rattle.definitions.specs.Basic.{over};
ghost use Rattle.definitions.specs.Rows.{half, fixed, tlv, tlv-e};
ghost use Rattle.definitions.specs.Writing.{encoded};
ghost use Rattle.rows.specs.Forms.{form_as};
ghost use Rattle.putting.specs.Puts.{puts, PutIf};

use copying::put_slice;
use rows::columns::Form;

// Whether an octet of a source is a half octet: of received octets its low four bits count.
fn is_half(source: u32, x: u8) -> bool
    ensures { result ≡ (eqb source 1 || leb x 15) }
{
    source == 1 || x <= 15
}

// A half octet in the octet of its IEI.
fn put_half(out: &mut [u8], source: u32, iei: u8, value: &[u8]) -> Option<usize>
    ensures { PutIf (puts half source iei value.now out.old) (encoded half iei value.now) out.old result out.new }
{
    let &[x] = value else {
        return None;
    };
    if !is_half(source, x) || iei > 240 {
        return None;
    }
    let first = out.first_mut()?;
    *first = iei + x % 16;
    Some(1)
}

// The IEI and the length field, N octets together, and the value behind them.
fn put_headed<const N: usize>(out: &mut [u8], head: [u8; N], value: &[u8]) -> Option<usize>
    ensures { PutIf (leb (length (head.entry ++ value.now)) (length out.old)) (head.entry ++ value.now) out.old result out.new }
{
    let n = N + value.len();
    if out.len() < n {
        return None;
    }
    out[..N].copy_from_slice(&head);
    put_slice(&mut out[N..], value);
    Some(n)
}

// No length field.
fn put_fixed(out: &mut [u8], n: usize, iei: u8, value: &[u8]) -> Option<usize>
    ensures { PutIf (puts (fixed n) 0 iei value.now out.old) (encoded (fixed n) iei value.now) out.old result out.new }
{
    if value.len() != n {
        return None;
    }
    put_headed(out, [iei], value)
}

// One length octet.
fn put_tlv(out: &mut [u8], iei: u8, value: &[u8]) -> Option<usize>
    ensures { PutIf (puts tlv 0 iei value.now out.old) (encoded tlv iei value.now) out.old result out.new }
{
    let n = u8::try_from(value.len()).ok()?;
    put_headed(out, [iei, n], value)
}

// Two length octets, the high one first.
fn put_tlve(out: &mut [u8], iei: u8, value: &[u8]) -> Option<usize>
    ensures { PutIf (puts tlv-e 0 iei value.now out.old) (encoded tlv-e iei value.now) out.old result out.new }
{
    let [high, low] = u16::try_from(value.len()).ok()?.to_be_bytes();
    put_headed(out, [iei, high, low], value)
}

// The element of a value from a source, in a form and under an IEI.
pub fn put_ie(out: &mut [u8], form: Form, source: u32, iei: u8, value: &[u8]) -> Option<usize>
    ensures { PutIf (puts (form_as form) source iei value.now out.old) (encoded (form_as form) iei value.now) out.old result out.new }
{
    match form {
        Form::Half => put_half(out, source, iei, value),
        Form::Fixed(n) => put_fixed(out, n, iei, value),
        Form::Tlv => put_tlv(out, iei, value),
        Form::TlvE => put_tlve(out, iei, value),
    }
}
