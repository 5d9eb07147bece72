// The loader's one number for the answer of each call: "refusal number × 2^32 + place, or else the end, the rows, length + 65,536 × rows,
// the length"; of deltas, how many values or bytes were written; and of a period both its numbers, E + 65,536 × 2^(octave + 1).
#![tactic(auto)]

pub mod limit;

ghost use Rattle.std.specs.Prelude.{◌≡◌, ℕ, ◌^◌, ◌<◌};
ghost use Rattle.loader.specs.Number.{form_number, quotient_number, refusal_number, answer_number};

use packing::Form;
use periods::Quotient;
use refusal::Refusal;
use walk::Module;

// What the loader is told as one number.
pub trait Told {
    ghost told: { Self → ℕ };

    // That number, where it fits 64 bits.
    fn number(self) -> u64
        requires { told self < 2 ^ 64 }
        ensures { result ≡ told self };
}

// How many rows, values or bytes; and a length.
impl Told for usize {
    ghost told = { λ n. n };

    fn number(self) -> u64 {
        self as u64
    }
}

// The end.
impl Told for Module {
    ghost told = { λ it. it.end };

    fn number(self) -> u64 {
        self.end as u64
    }
}

impl Told for Form {
    ghost told = { form_number };

    fn number(self) -> u64 {
        self.length as u64 + 65536 * self.rows as u64
    }
}

impl Told for Quotient {
    ghost told = { quotient_number };

    fn number(self) -> u64 {
        u64::from(self.dividend) + 65536 * u64::from(self.divisor)
    }
}

#[tactic(auto, unfolding(xm::specs::Answer::loader_number))]
impl Told for Refusal {
    ghost told = { refusal_number };

    fn number(self) -> u64 {
        u64::from(self.number) * 4294967296 + self.place as u64
    }
}

// Of any call's answer.
pub fn answer_number<T: Told + Drop>(answer: Result<T, Refusal>) -> u64
    requires { answer_number T.told answer < 2 ^ 64 }
    ensures { result ≡ answer_number T.told answer }
{
    match answer {
        Ok(value) => value.number(),
        Err(refusal) => refusal.number(),
    }
}
