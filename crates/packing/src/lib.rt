// Packing: the cells of a pattern in their shortest stored form.
#![tactic(auto)]

ghost use Rattle.std.specs.Prelude.{◌≡◌, ◌*◌, ◌≤◌, length, replicate};
ghost use Rattle.xm.specs.Format.{joined};
ghost use Rattle.xm.specs.Answer.{in_front};
ghost use Rattle.xm.specs.Cell.{cell_size, write_cell};
ghost use Rattle.xm.specs.Stored.{rows_most, channels_most};
ghost use Rattle.xm.specs.Packing.{packing, pack_after};
ghost use Rattle.refusal.specs.Refusal.{outcome};
ghost use Rattle.packing.specs.Packed.{form_of, LimitedLength};

use cell::pattern::{in_range, stored_size};
use cell::read::{kept_in, shortest_by};
use cell::write::{write_cell, write_over};
use refusal::{Cause, Refusal};

// A stored form that was written: how many data bytes, and its row number.
#[derive(Clone, Copy, Debug, PartialEq, Eq)]
pub struct Form {
    pub length: usize,
    pub rows: usize,
}

// The first pass over lent cells: how many bytes they take in their shortest form. Above what data can be, the rest are not measured.
fn measure_cells(cells: &[[u8; 5]]) -> usize
    requires { length cells.now ≤ rows_most * channels_most }
    ensures { LimitedLength (length (joined write_cell cells.now)) result }
{
    let mut shortest = 0;
    for cell in cells {
        if shortest > 65535 {
            break;
        }
        shortest += shortest_by(cell[0], kept_in(cell));
    }
    shortest
}

// A number that is 0 only for an empty cell: four of its bytes are one load.
fn weight(cell: &[u8; 5]) -> u64
    ensures { result ≡ 0 → cell.now ≡ replicate cell_size 0 }
{
    u64::from(cell[0])
        + 256 * u64::from(cell[1])
        + 65536 * u64::from(cell[2])
        + 16777216 * u64::from(cell[3])
        + u64::from(cell[4])
}

// Lent cells one by one, each in its shortest form at the front of out.
fn write_each(cells: &[[u8; 5]], out: &mut [u8])
    requires { length (joined write_cell cells.now) ≤ length out.old }
    ensures { out.new ≡ in_front (joined write_cell cells.now) out.old }
{
    let mut to = 0;
    for cell in cells {
        to += write_cell(cell, &mut out[to..]);
    }
}

// The second pass over lent cells: each in its shortest form, at the front of out. A cell takes a byte at least: the last five leave room
// for the six bytes that each of the others may write over.
fn write_cells(cells: &[[u8; 5]], out: &mut [u8])
    requires { length (joined write_cell cells.now) ≤ length out.old }
    ensures { out.new ≡ in_front (joined write_cell cells.now) out.old }
{
    let (most, last) = cells.split_at(cells.len().saturating_sub(5));
    let mut to = 0;
    for cell in most {
        if weight(cell) == 0 {
            out[to] = 128;
            to += 1;
            continue;
        }
        to += write_over(cell, &mut out[to..]);
    }
    write_each(last, &mut out[to..]);
}

// Packs a pattern's cells. The first pass decides every refusal, so that a refused call writes nothing.
// Five bytes to a cell: the size that the lent cells must have.
pub fn pack(rows: usize, channels: usize, cells: &[u8], out: &mut [u8]) -> Result<Form, Refusal>
    ensures value { result ≡ outcome form_of (packing rows channels cells.now (length out.old)) }
    ensures out_after { out.new ≡ pack_after rows channels cells.now out.old }
{
    if !in_range(rows, channels) {
        return Err(Cause::Argument.at(0));
    }
    let count = rows * channels;
    if cells.len() != count * 5 {
        return Err(Cause::Argument.at(0));
    }
    let (cells, _) = cells.as_chunks::<5>();
    let shortest = measure_cells(cells);
    if 65535 < shortest {
        return Err(Cause::PackedSize.at(0));
    }
    let size = stored_size(count, shortest);
    if out.len() < size {
        return Err(Cause::NoRoom.at(0));
    }
    if 0 < size {
        write_cells(cells, out);
    }
    Ok(Form { length: size, rows })
}
