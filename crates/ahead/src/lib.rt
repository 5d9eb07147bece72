// What the fast loops stand on: eight bytes at once, empty cells among them, and two cells ahead; and the lengths of a block of bytes.
#![tactic(auto)]

ghost use Rattle.std.specs.Prelude.{◌≡◌, ◌+◌, ◌*◌, ◌%◌, ◌≤◌, length};
ghost use Rattle.xm.specs.Cell.{length_by};
ghost use Rattle.ahead.specs.Ahead.{eight_at, EightRead, Empties, AheadOf, cell_behind, lengths_by, block_size, BlockOf, Follows, lengths_from};

use cell::read::chosen;

// Of cells from a place on: how many stand in front of the last one, where that stands, and what follows it.
#[derive(Clone, Copy, Debug, PartialEq, Eq)]
pub struct Ahead {
    pub cells: usize,
    pub last: usize,
    pub next: usize,
}

// An eight: eight bytes as one number, low first. A loop keeps the number from turn to turn: so it stays one load. Of a slice cut to eight
// the loop keeps the address too, and measures a tenth slower.
pub fn eight_at(stored: &[u8], place: usize) -> u64
    requires { place + 8 ≤ length stored.now }
    ensures { result ≡ eight_at stored.now place }
{
    u64::from_le_bytes([
        stored[place],
        stored[place + 1],
        stored[place + 2],
        stored[place + 3],
        stored[place + 4],
        stored[place + 5],
        stored[place + 6],
        stored[place + 7],
    ])
}

// The first eight bytes, where there are so many.
pub fn first_eight(stored: &[u8]) -> u64
    ensures { EightRead stored.now 0 result }
{
    stored
        .first_chunk()
        .map_or(0, |eight| u64::from_le_bytes(*eight))
}

// How many of an eight's first seven bytes, from the first on, are empty cells: less seven times 128, they are the zero bytes below.
#[tactic(auto, using(crate::proofs::AheadLaws::run_of))]
fn empty_run(eight: u64) -> usize
    ensures { Empties eight result }
{
    let rest = eight % 0x0100_0000_0000_0000 + 0x7f7f_7f7f_7f7f_7f80;
    rest.trailing_zeros() as usize / 8
}

// Sixteen lengths, four bits each, by the lead byte's low four bits: an eight's first cell is plain, or marked with no parameter or one.
#[tactic(auto, unfolding(crate::specs::Ahead::lengths_by))]
fn lengths_by(eight: u64) -> u64
    ensures { result ≡ lengths_by eight }
{
    if eight % 256 < 128 {
        0x5555_5555_5555_5555
    } else if eight / 16 % 2 == 0 {
        0x5443_4332_4332_3221
    } else {
        0x6554_5443_5443_4332
    }
}

// The length of an eight's first cell.
#[tactic(auto, using(crate::proofs::Lengths::lengths_at, crate::proofs::Lengths::length_six))]
fn first_length(eight: u64) -> usize
    ensures value { result ≡ length_by (eight % 256) }
    ensures upper_bound { result ≤ 6 }
{
    let lengths = lengths_by(eight);
    (lengths >> (eight % 16 * 4)) as usize % 16
}

// The cell behind some bytes of an eight, and what follows it.
fn ahead_by(eight: u64, place: usize, cells: usize, bytes: usize) -> Ahead
    requires place_bound { place + 13 ≤ 18446744073709551615 }
    requires bytes_bound { bytes ≤ 7 }
    ensures { result ≡ cell_behind eight place cells (8 * bytes) }
{
    let last = place + bytes;
    Ahead {
        cells,
        last,
        next: last + first_length(eight >> (8 * bytes)),
    }
}

// Two cells, or empty cells and another one, by the eight that stands at a place.
pub fn look_ahead(stored: &[u8], place: usize, eight: u64) -> Ahead
    requires place_in_bounds { place + 13 ≤ length stored.now }
    requires eight_value { eight ≡ eight_at stored.now place }
    ensures { AheadOf stored.now place result }
{
    if eight % 256 == 128 {
        let empty = empty_run(eight);
        return ahead_by(eight, place, empty, empty);
    }
    ahead_by(eight, place, 1, first_length(eight))
}

// The bytes of a block, of which there are not always so many.
pub fn block_of(rest: usize) -> usize
    ensures { BlockOf rest result }
{
    rest.min(64)
}

// The length of the cell that a byte would lead, in a byte: so that many are worked out at once.
#[tactic(auto, using(crate::proofs::Lengths::length_masked))]
fn length_in_byte(lead: u8) -> u8
    ensures { result ≡ length_by lead }
{
    let marked = 1 + (lead & 31).count_ones() as u8;
    chosen(lead < 128, 5, marked)
}

// The lengths of the cells that the bytes from a place on would lead, whatever they are. By place and size, as `measure` fills its weights,
// for which it reads five bytes behind these.
pub fn fill_lengths(stored: &[u8], place: usize, size: usize, lengths: &mut [u8; 64])
    requires size_in_bounds { place + size ≤ length stored.now }
    requires size_le_block_size { size ≤ block_size }
    ensures { Follows (lengths_from stored.now place) size lengths.new }
{
    for i in 0..size {
        lengths[i] = length_in_byte(stored[place + i]);
    }
}
