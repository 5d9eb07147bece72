// One cell in its shortest form. No lent cell is copied: a field is read where it is written.
ghost use Rattle.std.specs.Prelude.{◌≡◌, ◌+◌, ◌≤◌, ◌<◌, cond, ◌&&◌, ltb, eqb, length, set};
ghost use Rattle.xm.specs.Answer.{in_front};
ghost use Rattle.xm.specs.Lay.{lay};
ghost use Rattle.xm.specs.Cell.{cell_size, bit, kept, marks, write_cell};
ghost use Rattle.cell.specs.Read.{cell_fields};
ghost use Rattle.cell.specs.Over.{over_most, Over};

use crate::read::Cell;

// The lead byte of a lent cell that is marked: a bit for each field that isn't 0.
fn lead_of(cell: &[u8; 5]) -> u8
    ensures { result ≡ 128 + marks cell.now }
{
    128 + u8::from(cell[0] != 0)
        + 2 * u8::from(cell[1] != 0)
        + 4 * u8::from(cell[2] != 0)
        + 8 * u8::from(cell[3] != 0)
        + 16 * u8::from(cell[4] != 0)
}

// A field, unless it is 0, at a place of out; the place after it.
pub fn put(field: u8, place: usize, out: &mut [u8]) -> usize
    requires { place + bit field ≤ length out.old }
    ensures value { result ≡ place + bit field }
    ensures out_after { out.new ≡ lay out.old place (kept field) }
{
    if field == 0 {
        return place;
    }
    out[place] = field;
    place + 1
}

// All fields of a cell that was read as they stand, at the front of out. Each by itself: copied as an array they take 18 instructions more.
// Room in a part of no fixed length.
pub fn put_plain(cell: Cell, out: &mut [u8])
    requires { cell_size ≤ length out.old }
    ensures { out.new ≡ in_front (cell_fields cell) out.old }
{
    out[0] = cell.note;
    out[1] = cell.instrument;
    out[2] = cell.volume;
    out[3] = cell.effect;
    out[4] = cell.parameter;
}

// The same of a lent cell.
// Room in a part of no fixed length.
fn copy_plain(cell: &[u8; 5], out: &mut [u8])
    requires { cell_size ≤ length out.old }
    ensures { out.new ≡ in_front cell.now out.old }
{
    out[..5].copy_from_slice(cell);
}

// Whether a cell goes plain, by the lead byte that it would have and by its note: no field is 0, at a tie it is marked, and "A note of 128 or
// more can only be stored marked".
fn goes_plain(lead: u8, note: u8) -> bool
    ensures { result ≡ (eqb lead 159 && ltb note 128) }
{
    lead == 159 && note < 128
}

// A lent cell in its shortest form at the front of out; its length. Inlined, so that packing makes no call.
#[inline(always)]
pub fn write_cell(cell: &[u8; 5], out: &mut [u8]) -> usize
    requires { length (write_cell cell.now) ≤ length out.old }
    ensures value { result ≡ length (write_cell cell.now) }
    ensures out_after { out.new ≡ in_front (write_cell cell.now) out.old }
{
    let lead = lead_of(cell);
    if goes_plain(lead, cell[0]) {
        copy_plain(cell, out);
        return 5;
    }
    out[0] = lead;
    let p1 = put(cell[0], 1, out);
    let p2 = put(cell[1], p1, out);
    let p3 = put(cell[2], p2, out);
    let p4 = put(cell[3], p3, out);
    put(cell[4], p4, out)
}

// A field at a place of out, where the next one goes over it if it is 0; the place of the next.
// Beside `put`, since a choice of whether to store would be a jump.
pub fn put_over(field: u8, place: usize, out: &mut [u8]) -> usize
    requires { place < length out.old }
    ensures value { result ≡ place + bit field }
    ensures upper_bound { result ≤ place + 1 }
    ensures out_after { out.new ≡ set out.old place field }
{
    out[place] = field;
    place + usize::from(field != 0)
}

// Where the first field goes: a plain cell has it in the place of the lead byte.
// A plain test, and no kind.
pub fn first_place(plain: bool) -> usize
    ensures value { result ≡ cond plain 0 1 }
    ensures upper_bound { result ≤ 1 }
{
    usize::from(!plain)
}

// As `write_cell`, with no branch: it may change the bytes behind the cell too, which the caller still has to write.
pub fn write_over(cell: &[u8; 5], out: &mut [u8]) -> usize
    requires { over_most ≤ length out.old }
    ensures value { result ≡ length (write_cell cell.now) }
    ensures over { Over (write_cell cell.now) out.old out.new }
{
    let lead = lead_of(cell);
    out[0] = lead;
    let p0 = first_place(goes_plain(lead, cell[0]));
    let p1 = put_over(cell[0], p0, out);
    let p2 = put_over(cell[1], p1, out);
    let p3 = put_over(cell[2], p2, out);
    let p4 = put_over(cell[3], p3, out);
    put_over(cell[4], p4, out)
}
