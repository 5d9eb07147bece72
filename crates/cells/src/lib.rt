// Unpacking: a stored pattern's cells, five bytes each.
#![tactic(auto)]

ghost use Rattle.std.specs.Prelude.{◌≡◌, ◌+◌, ◌*◌, ◌≤◌, true, length, drop};
ghost use Rattle.xm.specs.Got.{accepted};
ghost use Rattle.xm.specs.Format.{flat};
ghost use Rattle.xm.specs.Answer.{in_front};
ghost use Rattle.xm.specs.Stored.{read_run};
ghost use Rattle.xm.specs.Run.{cells_in};
ghost use Rattle.xm.specs.Packing.{rows_read, unpacking, unpack_after};
ghost use Rattle.xm.specs.Cell.{cell_size};
ghost use Rattle.refusal.specs.Refusal.{outcome};
ghost use Rattle.cells.specs.Unpacked.{first_fields};

use cell::write::put_plain;
use cell::{pattern, read};
use refusal::{Cause, Refusal, Step};
use slices::write::clear;

// The cells from a place on, which were accepted, five bytes each, at the front, one by one.
// Room in a part of no fixed length.
fn fill_each(stored: &[u8], from: usize, count: usize, out: &mut [u8])
    requires from_in_bounds { from ≤ length stored.now }
    requires stored_value { accepted (read_run count from (drop from stored.now)) ≡ true }
    requires cell_size_in_bounds { count * cell_size ≤ length out.old }
    ensures { out.new ≡ in_front (flat (cells_in count (drop from stored.now))) out.old }
{
    let mut at = from;
    let mut to = 0;
    for _ in 0..count {
        let cell = read::take_cell(stored, at);
        put_plain(cell, &mut out[to..]);
        at += read::cell_length(stored[at]);
        to += 5;
    }
}

// The first cell of an eight at the front; of empty ones as many as there may be, for those that follow are written over.
// Its place is one clause: in a struct every other clause would read through it.
fn fill_first(stored: &[u8], place: usize, eight: u64, out: &mut [u8])
    requires place_in_bounds { place + 6 ≤ length stored.now }
    requires in_bounds { 40 ≤ length out.old }
    ensures { out.new ≡ in_front (first_fields eight (drop place stored.now)) out.old }
{
    if eight % 256 == 128 {
        clear(40, out);
    } else {
        put_plain(read::take_over(stored, place), out);
    }
}

// A run of cells that were accepted, five bytes each, at the front, two or more at a time: the cells say how far a turn goes. A call of its
// own, so that what it keeps does not stand on the stack during the first pass.
#[inline(never)]
fn fill_cells(stored: &[u8], count: usize, out: &mut [u8])
    requires stored_value { accepted (read_run count 0 stored.now) ≡ true }
    requires cell_size_in_bounds { count * cell_size ≤ length out.old }
    ensures { out.new ≡ in_front (flat (cells_in count stored.now)) out.old }
{
    let mut at = 0;
    let mut to = 0;
    let mut left = count; // all are still to come
    let mut eight = ahead::first_eight(stored);
    while 9 <= left && 21 <= stored.len() - at {
        let turn = ahead::look_ahead(stored, at, eight);
        let next = ahead::eight_at(stored, turn.next);
        fill_first(stored, at, eight, &mut out[to..]);
        to += turn.cells * 5;
        put_plain(read::take_over(stored, turn.last), &mut out[to..]);
        to += 5;
        at = turn.next;
        left -= turn.cells + 1;
        eight = next;
    }
    fill_each(stored, at, left, &mut out[to..]);
}

// A stored pattern's cells, five bytes each; its rows. A first pass decides every refusal, a second fills.
// Five bytes to a cell: a size, or a place that the cells move.
pub fn unpack(
    rows: usize,
    channels: usize,
    stored: &[u8],
    cells: &mut [u8],
) -> Result<usize, Refusal>
    ensures value { result ≡ outcome rows_read (unpacking rows channels stored.now (length cells.old)) }
    ensures cells_after { cells.new ≡ unpack_after rows channels stored.now cells.old }
{
    if !pattern::in_range(rows, channels) || 65535 < stored.len() {
        return Err(Cause::Argument.at(0));
    }
    let step = scan::scan_stored(stored, rows, channels);
    let Step::Given(_) = step else {
        return Err(step.refusal());
    };
    let count = rows * channels;
    if cells.len() < count * 5 {
        return Err(Cause::NoRoom.at(0));
    }
    // "S = 0 means empty cells for the row number in the header."
    if stored.is_empty() {
        clear(count * 5, cells);
    } else {
        fill_cells(stored, count, cells);
    }
    Ok(rows)
}
