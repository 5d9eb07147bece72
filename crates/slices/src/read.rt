// The numbers of one, two and four bytes at an offset from a place, also of a structure that is cut off; and a byte read as signed.
ghost use Rattle.std.specs.Prelude.{◌≡◌, ◌+◌, ◌≤◌, length, take, drop};
ghost use Rattle.xm.specs.Number.{signed};
ghost use Rattle.slices.specs.Number.{Reads};

use super::number::Number;

// The number at an offset from a place.
pub fn read<N: Number>(file: &[u8], place: usize, offset: usize) -> usize
    requires { place + offset + N.bytes ≤ length file.now }
    ensures { Reads N.number_at N.values offset (drop place file.now) result }
{
    N::number(file, place, offset)
}

// The same of a structure of `size` bytes: what would stand at its end or beyond reads as 0, and a cut may go through a number.
// Its place is one clause: in a struct every other clause would read through it.
pub fn read_in<N: Number>(file: &[u8], place: usize, size: usize, offset: usize) -> usize
    requires { place + size ≤ length file.now }
    ensures { Reads N.number_at N.values offset (take size (drop place file.now)) result }
{
    N::number_in(file, place, size, offset)
}

// A byte read as signed: 80 hex is -128.
// The one name for "read as signed numbers", over the library's method.
#[tactic(auto, unfolding(xm::specs::Number::signed))]
pub fn signed_byte(number: u8) -> i8
    ensures { result ≡ signed 8 number }
{
    number.cast_signed()
}
