// Samples: stored differences to values, and values to stored differences, at 8 and at 16 bits.
#![tactic(auto)]

pub mod stored;

ghost use Rattle.std.specs.Prelude.{◌≡◌, length};
ghost use Rattle.xm.specs.Delta.{fits, all_fit, decoding, coding, decode_after, code_after};
ghost use Rattle.xm.proofs.Delta.{Paired, Covered};
ghost use Rattle.refusal.specs.Refusal.{outcome};

use refusal::{Cause, Refusal};
pub use stored::Stored;

// The values of stored differences: their wrapped sums, as signed numbers. Two at a time: in a loop of one the widening stands in
// the chain of sums, and 8 bits take 18 % longer.
fn decode_stored<S: Stored>(bytes: &[u8], values: &mut [i16]) -> Result<usize, Refusal>
    requires { Paired S.width bytes.now }
    ensures answer { result ≡ outcome length (decoding S.width bytes.now (length values.old)) }
    ensures memory { values.new ≡ decode_after S.width bytes.now values.old }
{
    let count = S::count(bytes);
    if values.len() < count {
        return Err(Cause::NoRoom.at(0));
    }
    let mut sum = S::zero();
    for i in 0..count / 2 {
        let first = sum.plus(S::at(bytes, 2 * i));
        sum = first.plus(S::at(bytes, 2 * i + 1));
        values[2 * i] = first.value();
        values[2 * i + 1] = sum.value();
    }
    if count % 2 == 0 {
        return Ok(count);
    }
    sum = sum.plus(S::at(bytes, count - 1));
    values[count - 1] = sum.value();
    Ok(count)
}

// Bytes to values. The width is a number, as C hands it: any other than 8 and 16 is answered too.
pub fn decode(width: usize, bytes: &[u8], values: &mut [i16]) -> Result<usize, Refusal>
    ensures answer { result ≡ outcome length (decoding width bytes.now (length values.old)) }
    ensures memory { values.new ≡ decode_after width bytes.now values.old }
{
    match width {
        8 => decode_stored::<u8>(bytes, values),
        16 => {
            if bytes.len() % 2 != 0 {
                return Err(Cause::Argument.at(0));
            }
            decode_stored::<u16>(bytes, values)
        }
        _ => Err(Cause::Argument.at(0)),
    }
}

// The differences of values that fit the width.
fn code_stored<S: Stored>(values: &[i16], bytes: &mut [u8]) -> Result<usize, Refusal>
    requires { Covered S.width values.now }
    ensures answer { result ≡ outcome length (coding S.width values.now (length bytes.old)) }
    ensures memory { bytes.new ≡ code_after S.width values.now bytes.old }
{
    if S::count(bytes) < values.len() {
        return Err(Cause::NoRoom.at(0));
    }
    let mut before = S::zero();
    for (i, value) in values.iter().enumerate() {
        let next = S::of(*value);
        next.behind(before).put(i, bytes);
        before = next;
    }
    Ok(S::BYTES * values.len())
}

// Whether a value can be coded at 8 bits.
// No twin: 16 bits hold every value.
fn fits8(value: i16) -> bool
    ensures { result ≡ fits 8 value }
{
    i8::try_from(value).is_ok()
}

// Whether every value is in -128..127; no early exit, so that many are compared at once.
fn all_fit8(values: &[i16]) -> bool
    ensures { result ≡ all_fit 8 values.now }
{
    let mut fit = true;
    for value in values {
        fit &= fits8(*value);
    }
    fit
}

// Values to bytes.
pub fn code(width: usize, values: &[i16], bytes: &mut [u8]) -> Result<usize, Refusal>
    ensures answer { result ≡ outcome length (coding width values.now (length bytes.old)) }
    ensures memory { bytes.new ≡ code_after width values.now bytes.old }
{
    match width {
        8 => {
            if !all_fit8(values) {
                return Err(Cause::Argument.at(0));
            }
            code_stored::<u8>(values, bytes)
        }
        16 => code_stored::<u16>(values, bytes),
        _ => Err(Cause::Argument.at(0)),
    }
}
