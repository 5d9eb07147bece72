// The numbers of a file by the count of their bytes, the low byte first.
ghost use Rattle.std.specs.Prelude.{◌≡◌, ℕ, List, ◌+◌, ◌≤◌, ◌<◌, length, take, drop};
ghost use Rattle.xm.specs.Number.{byte_at, word_at, long_at, byte, word, long};
ghost use Rattle.xm.specs.Answer.{in_front};
ghost use Rattle.slices.specs.Number.{Reads};

pub trait Number {
    // How many bytes it takes, and how many such numbers there are.
    ghost bytes: { ℕ };

    ghost values: { ℕ };

    // As it is read at an offset, and the bytes that it is written in.
    ghost number_at: { ℕ → List ℕ → ℕ };

    ghost written: { ℕ → List ℕ };

    // The number at an offset from a place.
    fn number(file: &[u8], place: usize, offset: usize) -> usize
        requires { place + offset + bytes ≤ length file.now }
        ensures { Reads number_at values offset (drop place file.now) result };

    // The same of a structure of `size` bytes: what would stand at its end or beyond reads as 0.
    fn number_in(file: &[u8], place: usize, size: usize, offset: usize) -> usize
        requires { place + size ≤ length file.now }
        ensures { Reads number_at values offset (take size (drop place file.now)) result };

    // Writes a number at the front of `out`.
    fn store(number: usize, out: &mut [u8])
        requires number_bound { number < values }
        requires in_bounds { bytes ≤ length out.old }
        ensures { out.new ≡ in_front (written number) out.old };
}

// A byte of a structure of `size` bytes: what would stand at its end or beyond reads as 0.
// Its place is one clause: in a struct every other clause would read through it.
fn byte_in(file: &[u8], place: usize, size: usize, offset: usize) -> u8
    requires { place + size ≤ length file.now }
    ensures { result ≡ byte_at offset (take size (drop place file.now)) }
{
    if offset < size {
        return file[place + offset];
    }
    0
}

impl Number for u8 {
    ghost bytes = { 1 };

    ghost values = { 256 };

    ghost number_at = { byte_at };

    ghost written = { byte };

    fn number(file: &[u8], place: usize, offset: usize) -> usize {
        usize::from(file[place + offset])
    }

    fn number_in(file: &[u8], place: usize, size: usize, offset: usize) -> usize {
        usize::from(byte_in(file, place, size, offset))
    }

    fn store(number: usize, out: &mut [u8]) {
        out[0] = number as u8;
    }
}

#[tactic(auto, using(crate::proofs::Whole::word_whole), unfolding(xm::specs::Number::word_at))]
impl Number for u16 {
    ghost bytes = { 2 };

    ghost values = { 65536 };

    ghost number_at = { word_at };

    ghost written = { word };

    fn number(file: &[u8], place: usize, offset: usize) -> usize {
        let at = place + offset;
        usize::from(u16::from_le_bytes([file[at], file[at + 1]]))
    }

    fn number_in(file: &[u8], place: usize, size: usize, offset: usize) -> usize {
        // mostly it is there whole: then it is one load
        if 2 <= size && offset <= size - 2 {
            return Self::number(file, place, offset);
        }
        if size <= offset {
            return 0;
        }
        let low = byte_in(file, place, size, offset);
        let high = byte_in(file, place, size, offset + 1);
        usize::from(u16::from_le_bytes([low, high]))
    }

    fn store(number: usize, out: &mut [u8]) {
        out[..2].copy_from_slice(&(number as u16).to_le_bytes());
    }
}

#[tactic(auto, using(crate::proofs::Whole::long_whole), unfolding(xm::specs::Number::long_at))]
impl Number for u32 {
    ghost bytes = { 4 };

    ghost values = { 4294967296 };

    ghost number_at = { long_at };

    ghost written = { long };

    fn number(file: &[u8], place: usize, offset: usize) -> usize {
        let at = place + offset;
        u32::from_le_bytes([file[at], file[at + 1], file[at + 2], file[at + 3]]) as usize
    }

    fn number_in(file: &[u8], place: usize, size: usize, offset: usize) -> usize {
        if 4 <= size && offset <= size - 4 {
            return Self::number(file, place, offset);
        }
        if size <= offset {
            return 0;
        }
        let first = byte_in(file, place, size, offset);
        let second = byte_in(file, place, size, offset + 1);
        let third = byte_in(file, place, size, offset + 2);
        let fourth = byte_in(file, place, size, offset + 3);
        u32::from_le_bytes([first, second, third, fourth]) as usize
    }

    fn store(number: usize, out: &mut [u8]) {
        out[..4].copy_from_slice(&(number as u32).to_le_bytes());
    }
}
