// Stored cells that were accepted, pressed: written again, each in its shortest form.
ghost use Rattle.std.specs.Prelude.{◌≡◌, ◌≤◌, true, length, drop};
ghost use Rattle.xm.specs.Got.{accepted};
ghost use Rattle.xm.specs.Format.{joined};
ghost use Rattle.xm.specs.Answer.{in_front};
ghost use Rattle.xm.specs.Cell.{write_cell};
ghost use Rattle.xm.specs.Stored.{read_run};
ghost use Rattle.xm.specs.Run.{cells_in};
ghost use Rattle.shortest.specs.Found.{stored_pressed, Known};

use cell::read::{cell_end, cell_length};
use mark::Mark;
use rewrite::{rewrite_cell, rewrite_over};
use slices::write::copy;

// Stored cells that were accepted, from a place on, one by one, each in its shortest form at the front of out; how many bytes these take.
// Its place is one clause: in a struct every other clause would read through it.
fn press_each(stored: &[u8], from: usize, count: usize, out: &mut [u8]) -> usize
    requires from_in_bounds { from ≤ length stored.now }
    requires stored_value { accepted (read_run count from (drop from stored.now)) ≡ true }
    requires stored_in_bounds { length (joined write_cell (cells_in count (drop from stored.now))) ≤ length out.old }
    ensures value { result ≡ length (joined write_cell (cells_in count (drop from stored.now))) }
    ensures out_after { out.new ≡ in_front (joined write_cell (cells_in count (drop from stored.now))) out.old }
{
    let mut place = from;
    let mut to = 0;
    for _ in 0..count {
        let at = place;
        place += cell_length(stored[at]);
        to += rewrite_cell(stored, at, &mut out[to..]);
    }
    to
}

// All of them. The lead byte 128 alone is an empty cell, as most are. A cell takes a byte at least, here and there: five behind this one
// leave room for six bytes. A `for` over all but five keeps a second count, and takes a quarter more time where most cells are not empty.
fn press_cells(stored: &[u8], count: usize, out: &mut [u8]) -> usize
    requires stored_value { accepted (read_run count 0 stored.now) ≡ true }
    requires stored_in_bounds { length (joined write_cell (cells_in count stored.now)) ≤ length out.old }
    ensures value { result ≡ length (joined write_cell (cells_in count stored.now)) }
    ensures out_after { out.new ≡ in_front (joined write_cell (cells_in count stored.now)) out.old }
{
    let mut place = 0;
    let mut to = 0;
    let mut left = count;
    while 5 < left {
        let at = place;
        let lead = stored[at];
        left -= 1;
        if lead == 128 {
            out[to] = 128;
            to += 1;
            place += 1;
            continue;
        }
        place = cell_end(lead, at);
        to += rewrite_over(stored, at, &mut out[to..]);
    }
    to + press_each(stored, place, left, &mut out[to..])
}

// An accepted stored form of a pattern in its shortest form at the front of out; its length there. By its mark the cells are written again,
// the bytes are copied, which are that form already, or nothing is written, of empty cells alone.
#[tactic(auto, using(crate::proofs::FoundLaws::again_fine, crate::proofs::FoundLaws::again_same))]
pub fn write_stored(
    stored: &[u8],
    rows: usize,
    channels: usize,
    mark: Mark,
    out: &mut [u8],
) -> usize
    requires known { Known rows channels stored.now mark }
    requires stored_in_bounds { length (stored_pressed rows channels stored.now) ≤ length out.old }
    ensures value { result ≡ length (stored_pressed rows channels stored.now) }
    ensures out_after { out.new ≡ in_front (stored_pressed rows channels stored.now) out.old }
{
    match mark {
        Mark::Nothing => 0,
        Mark::Copied => {
            copy(stored, out);
            stored.len()
        }
        Mark::Again => press_cells(stored, rows * channels, out),
    }
}
