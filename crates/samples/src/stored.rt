// The stored numbers of a sample, at 8 and at 16 bits: what their bits are, and how they are read, summed, and told as values.
ghost use Rattle.std.specs.Prelude.{◌≡◌, refl, ℕ, [], ◌∷◌, ◌+◌, ◌*◌, ◌/◌, ◌%◌, ◌^◌, ◌<◌, ◌≤◌, length, get_or};
ghost use Rattle.xm.specs.Number.{signed};
ghost use Rattle.xm.specs.Got.{Holds};
ghost use Rattle.xm.specs.Lay.{lay};
ghost use Rattle.xm.specs.Delta.{stored_numbers, stored_bytes, residue, difference, width_test};
ghost use Rattle.xm.proofs.Delta.{difference-added};

pub trait Stored: Copy {
    // In bits, and in bytes.
    ghost width: { ℕ };

    ghost BYTES: { ℕ };

    const BYTES: usize;

    ghost number: { Self → ℕ };

    // Where the sums begin, and what the first value's difference is taken from.
    fn zero() -> Self
        ensures { number result ≡ 0 };

    // How many of them so many bytes are.
    fn count(bytes: &[u8]) -> usize
        ensures { result ≡ length (stored_numbers width bytes.now) };

    // The stored number with that index.
    fn at(bytes: &[u8], index: usize) -> Self
        requires { index < length (stored_numbers width bytes.now) }
        ensures { number result ≡ get_or (stored_numbers width bytes.now) index 0 };

    // Stores it with that index: the bytes before and behind it stay.
    fn put(self, index: usize, bytes: &mut [u8])
        requires { BYTES * index + BYTES ≤ length bytes.old }
        ensures { bytes.new ≡ lay bytes.old (BYTES * index) (stored_bytes width (number self ∷ [])) };

    // "Sums wrap."
    fn plus(self, more: Self) -> Self
        ensures { number result ≡ (number self + number more) % 2 ^ width };

    // What is stored for a value behind another: "differences wrap".
    fn behind(self, before: Self) -> Self
        ensures { number result ≡ difference width (number before) (number self) };

    // As a signed value.
    fn value(self) -> i16
        ensures { result ≡ signed width (number self) };

    // The number that a value's bits are.
    fn of(value: i16) -> Self
        ensures { number result ≡ residue width value };

    // The one modular fact, at either width: what was taken away and is added back gives the value.
    ghost added: { (before value : ℕ) → before < 2 ^ width → value < 2 ^ width → (before + difference width before value) % 2 ^ width ≡ value };

    // The width is one of the two that samples have.
    ghost known: { Holds (width_test width) };

    // It is whole bytes.
    ghost whole: { width ≡ 8 * BYTES };
}

#[tactic(auto, unfolding(xm::specs::Delta::difference, xm::specs::Delta::residue, xm::specs::Delta::stored_numbers, xm::specs::Delta::stored_bytes, xm::specs::Number::signed, xm::specs::Lay::lay))]
impl Stored for u8 {
    ghost width = { 8 };

    ghost BYTES = { 1 };

    const BYTES: usize = 1;

    ghost number = { λ x. x };

    ghost added = { difference-added 8 };

    ghost known = { refl };

    ghost whole = { refl };

    fn zero() -> u8 {
        0
    }

    fn count(bytes: &[u8]) -> usize {
        bytes.len()
    }

    fn at(bytes: &[u8], index: usize) -> u8 {
        bytes[index]
    }

    fn put(self, index: usize, bytes: &mut [u8]) {
        bytes[index] = self;
    }

    fn plus(self, more: u8) -> u8 {
        self.wrapping_add(more)
    }

    fn behind(self, before: u8) -> u8 {
        self.wrapping_sub(before)
    }

    fn value(self) -> i16 {
        i16::from(self.cast_signed())
    }

    fn of(value: i16) -> u8 {
        (value.cast_unsigned() % 256) as u8
    }
}

#[tactic(auto, using(crate::proofs::Loops::pair_count), unfolding(xm::specs::Delta::difference, xm::specs::Delta::residue, xm::specs::Delta::stored_bytes, xm::specs::Number::signed, xm::specs::Lay::lay))]
impl Stored for u16 {
    ghost width = { 16 };

    ghost BYTES = { 2 };

    const BYTES: usize = 2;

    ghost number = { λ x. x };

    ghost added = { difference-added 16 };

    ghost known = { refl };

    ghost whole = { refl };

    fn zero() -> u16 {
        0
    }

    fn count(bytes: &[u8]) -> usize {
        bytes.len() / 2
    }

    fn at(bytes: &[u8], index: usize) -> u16 {
        u16::from_le_bytes([bytes[2 * index], bytes[2 * index + 1]])
    }

    fn put(self, index: usize, bytes: &mut [u8]) {
        bytes[2 * index..2 * index + 2].copy_from_slice(&self.to_le_bytes());
    }

    fn plus(self, more: u16) -> u16 {
        self.wrapping_add(more)
    }

    fn behind(self, before: u16) -> u16 {
        self.wrapping_sub(before)
    }

    fn value(self) -> i16 {
        self.cast_signed()
    }

    fn of(value: i16) -> u16 {
        value.cast_unsigned()
    }
}
