// A checksum of lent memory: its numbers are the digits of one number, modulo a prime above each of them, so that a change of one of
// them shows always.
const PRIME: u64 = 4294967311;

const BASE: u64 = 257;

pub const START: u64 = 1;

// What is summed, each as an unsigned number.
pub trait Digit: Copy {
    fn digit(self) -> u32;
}

impl Digit for u8 {
    fn digit(self) -> u32 {
        u32::from(self)
    }
}

impl Digit for u32 {
    fn digit(self) -> u32 {
        self
    }
}

impl Digit for i16 {
    fn digit(self) -> u32 {
        u32::from(self.cast_unsigned())
    }
}

// A tune, as a value.
impl Digit for i8 {
    fn digit(self) -> u32 {
        i16::from(self).digit()
    }
}

// The sum of what stands before and of these behind it.
pub fn sum_onto<T: Digit>(before: u64, numbers: &[T]) -> u64 {
    numbers.iter().fold(before, |sum, number| {
        (sum % PRIME * BASE + u64::from(number.digit())) % PRIME
    })
}
