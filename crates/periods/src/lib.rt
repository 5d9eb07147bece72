// The period of a note and its finetune, by the table of the format's description: two whole numbers.
#![tactic(auto)]

mod table;

ghost use Rattle.std.specs.Prelude.{◌≡◌, ◌≤◌, ◌<◌};
ghost use Rattle.xm.specs.Delta.{fits};
ghost use Rattle.refusal.specs.Refusal.{outcome};
ghost use Rattle.periods.specs.Period.{note_most, rounded_down, remaining, position, period_at, tuning};
ghost use Rattle.periods.specs.Tuned.{quotient_of};

use refusal::{Cause, Refusal};

// The period is `dividend / divisor`: E, and 2^(octave + 1).
#[derive(Clone, Copy, Debug, PartialEq, Eq)]
pub struct Quotient {
    pub dividend: u32,
    pub divisor: u32,
}

const NOTE_MOST: u64 = 118;

// Whether a finetune is a signed byte.
fn finetune_fits(finetune: i64) -> bool
    ensures { result ≡ fits 8 finetune }
{
    i8::try_from(finetune).is_ok()
}

// It rounds down, where `/` rounds towards 0.
fn rounded_down(finetune: i64) -> i64
    ensures { result ≡ rounded_down finetune 16 }
{
    finetune.div_euclid(16)
}

// f: what remains of a finetune divided by 16.
fn what_remains(finetune: i64) -> usize
    ensures value { result ≡ remaining finetune 16 }
    ensures small { result < 16 }
{
    finetune.rem_euclid(16) as usize
}

// q, which counts eighths of a halftone.
fn position(note: u64, finetune: i64) -> i64
    requires { note ≤ note_most }
    ensures { result ≡ position note finetune }
{
    (8 * note) as i64 + rounded_down(finetune)
}

// The period of a note and finetune that are in range, by q and f.
fn period_at(q: usize, f: usize) -> Quotient
    requires q_small { q < 960 }
    requires f_small { f < 16 }
    ensures { result ≡ quotient_of (period_at q f) }
{
    let octave = q / 96;
    Quotient {
        dividend: u32::from(table::entry(16 * (q % 96) + f)),
        divisor: 1 << (octave + 1),
    }
}

// The period of a real note and its finetune.
pub fn period(note: u64, finetune: i64) -> Result<Quotient, Refusal>
    ensures { result ≡ outcome quotient_of (tuning note finetune) }
{
    if note > NOTE_MOST || !finetune_fits(finetune) {
        return Err(Cause::Argument.at(0));
    }
    let q = position(note, finetune);
    if q < 0 {
        return Err(Cause::Argument.at(0));
    }
    Ok(period_at(q as usize, what_remains(finetune)))
}
