// ADPCM samples: a table of 16 deltas, and two 4-bit indexes into it to a byte, to values.
#![tactic(auto)]

ghost use Rattle.std.specs.Prelude.{◌≡◌, ◌/◌, ◌%◌, ◌≤◌, ◌<◌, length};
ghost use Rattle.xm.specs.Answer.{in_front};
ghost use Rattle.xm.specs.Sample.{delta_table, adpcm_size};
ghost use Rattle.xm.specs.Adpcm.{adpcm_decoded, adpcm_decoding, adpcm_after};
ghost use Rattle.refusal.specs.Refusal.{outcome};

use refusal::{Cause, Refusal};
use samples::Stored;

const DELTA_TABLE: usize = 16;

// The bytes that `count` values are stored in; the sum of the two halves never wraps.
pub fn adpcm_size(count: usize) -> usize
    ensures { result ≡ adpcm_size count }
{
    if count == 0 {
        return 0;
    }
    DELTA_TABLE + count / 2 + count % 2
}

// "low half first"
fn low_half(pair: u8) -> usize
    ensures { (result ≡ pair % 16) × (result < delta_table) }
{
    usize::from(pair % 16)
}

// The index in the high half of a byte.
fn high_half(pair: u8) -> usize
    ensures { (result ≡ pair / 16) × (result < delta_table) }
{
    usize::from(pair / 16)
}

// The running sums of the chosen deltas, two to a byte; the deltas are read where they stand. At an odd
// length one more, and the high half of the last byte is left.
fn write_values(count: usize, bytes: &[u8], values: &mut [i16])
    requires bytes_len { length bytes.now ≡ adpcm_size count }
    requires count_in_bounds { count ≤ length values.old }
    ensures { values.new ≡ in_front (adpcm_decoded count bytes.now) values.old }
{
    let mut sum = u8::zero();
    for i in 0..count / 2 {
        let pair = bytes[DELTA_TABLE + i];
        let low = low_half(pair);
        let high = high_half(pair);
        let first = sum.plus(bytes[low]);
        sum = first.plus(bytes[high]);
        values[2 * i] = first.value();
        values[2 * i + 1] = sum.value();
    }
    if count % 2 == 1 {
        let last = low_half(bytes[DELTA_TABLE + count / 2]);
        let sum = sum.plus(bytes[last]);
        values[count - 1] = sum.value();
    }
}

// Stored bytes to values; `count` is the header's length.
pub fn decode_adpcm(count: usize, bytes: &[u8], values: &mut [i16]) -> Result<usize, Refusal>
    ensures answer { result ≡ outcome length (adpcm_decoding count bytes.now (length values.old)) }
    ensures memory { values.new ≡ adpcm_after count bytes.now values.old }
{
    if bytes.len() != adpcm_size(count) {
        return Err(Cause::Argument.at(0));
    }
    if values.len() < count {
        return Err(Cause::NoRoom.at(0));
    }
    write_values(count, bytes, values);
    Ok(count)
}
