// Bytes at the front of a lent part of the output.
ghost use Rattle.std.specs.Prelude.{◌≡◌, ◌≤◌, ◌<◌, length, replicate, take};
ghost use Rattle.xm.specs.Answer.{in_front};

use super::number::Number;

// All of `from`: a loop of one byte, which the compiler turns into wide moves. `copy_from_slice` of a length that it
// does not know calls memmove, which the C interface does not ask of who links the library.
pub fn copy(from: &[u8], out: &mut [u8])
    requires { length from.now ≤ length out.old }
    ensures { out.new ≡ in_front from.now out.old }
{
    for (i, byte) in from.iter().enumerate() {
        out[i] = *byte;
    }
}

// The first N bytes of `from`, whose number the compiler knows.
pub fn copy_front<const N: usize>(from: &[u8], out: &mut [u8])
    requires there { N ≤ length from.now }
    requires room { N ≤ length out.old }
    ensures { out.new ≡ in_front (take N from.now) out.old }
{
    out[..N].copy_from_slice(&from[..N]);
}

// Zeros, `count` of them.
// How much is written is not how long the part is.
pub fn clear(count: usize, out: &mut [u8])
    requires { count ≤ length out.old }
    ensures { out.new ≡ in_front (replicate count 0) out.old }
{
    out[..count].fill(0);
}

// A number, the low byte first.
pub fn put<N: Number>(number: usize, out: &mut [u8])
    requires number_bound { number < N.values }
    requires in_bounds { N.bytes ≤ length out.old }
    ensures { out.new ≡ in_front (N.written number) out.old }
{
    N::store(number, out);
}
