// The loader's limits: more than 16,777,216 bytes to decode or values to code get 16, and so does an ADPCM length above 33,554,432. So
// a count is always told from a refusal.
ghost use Rattle.std.specs.Prelude.{◌≡◌, ◌<◌, ◌≤◌, length, OnOk, IfErr};
ghost use Rattle.xm.specs.Got.{◌at◌};
ghost use Rattle.xm.specs.Delta.{decoding_limited, decode_limited_after, coding_limited, code_limited_after};
ghost use Rattle.xm.specs.Adpcm.{adpcm_limited, adpcm_limited_after};
ghost use Rattle.refusal.specs.Refusal.{code_refusal, outcome};

use refusal::{Cause, Refusal};

const DELTA_MOST: usize = 16777216;

const ADPCM_MOST: usize = 2 * DELTA_MOST;

// No more than the limit.
fn within(count: usize, most: usize) -> Result<(), Refusal>
    ensures inside { OnOk result (count ≤ most) }
    ensures above { IfErr result (λ refusal. (most < count) × (refusal ≡ code_refusal (16 at 0))) }
{
    if count <= most {
        Ok(())
    } else {
        Err(Cause::Argument.at(0))
    }
}

// Bytes to values. This and the next two keep their names, which docs/PROMISES.md has.
#[tactic(auto, using(crate::proofs::Limits::above_limit, crate::proofs::Limits::within_limit))]
pub fn decode(width: usize, bytes: &[u8], values: &mut [i16]) -> Result<usize, Refusal>
    ensures answer { result ≡ outcome length (decoding_limited width bytes.now (length values.old)) }
    ensures memory { values.new ≡ decode_limited_after width bytes.now values.old }
{
    within(bytes.len(), DELTA_MOST)?;
    samples::decode(width, bytes, values)
}

// Values to bytes.
#[tactic(auto, using(crate::proofs::Limits::above_limit, crate::proofs::Limits::within_limit))]
pub fn code(width: usize, values: &[i16], bytes: &mut [u8]) -> Result<usize, Refusal>
    ensures answer { result ≡ outcome length (coding_limited width values.now (length bytes.old)) }
    ensures memory { bytes.new ≡ code_limited_after width values.now bytes.old }
{
    within(values.len(), DELTA_MOST)?;
    samples::code(width, values, bytes)
}

// ADPCM bytes to values; `count` is the header's length.
#[tactic(auto, using(crate::proofs::Limits::above_limit, crate::proofs::Limits::within_limit))]
pub fn decode_adpcm(count: usize, bytes: &[u8], values: &mut [i16]) -> Result<usize, Refusal>
    ensures answer { result ≡ outcome length (adpcm_limited count bytes.now (length values.old)) }
    ensures memory { values.new ≡ adpcm_limited_after count bytes.now values.old }
{
    within(count, ADPCM_MOST)?;
    adpcm::decode_adpcm(count, bytes, values)
}
