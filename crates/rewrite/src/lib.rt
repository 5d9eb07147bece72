// One stored cell written again in its shortest form. A field is read where it is written, by the slice and its place; the lead byte, which
// tells of all five, comes last.
#![tactic(auto)]

ghost use Rattle.std.specs.Prelude.{◌≡◌, ◌+◌, ◌*◌, ◌%◌, ◌≤◌, ◌<◌, ◌&&◌, eqb, length, get_or, drop, set};
ghost use Rattle.xm.specs.Answer.{in_front};
ghost use Rattle.xm.specs.Lay.{lay};
ghost use Rattle.xm.specs.Cell.{cell_size, five, length_by, field_by, cell_at, bit, kept, kepts, plain_by, write_cell};
ghost use Rattle.cell.specs.Over.{over_most, Over};
ghost use Rattle.rewrite.specs.Rewrite.{Moved};

use cell::read::{Field, field_at, field_over, fields_of, kept_in, plain_by};
use cell::write::{first_place, put, put_over, write_cell};

// The lead byte of a marked cell, by the place of the first field and those behind each: a place moved on by a field's bit.
fn lead_by(p0: usize, p1: usize, p2: usize, p3: usize, p4: usize, p5: usize) -> u8
    requires { Moved p0 p1 p2 p3 p4 p5 }
    ensures { result + (p0 + p1 + 2 * p2 + 4 * p3 + 8 * p4) ≡ 128 + 16 * p5 }
{
    (128 + 16 * p5 - (p0 + p1 + 2 * p2 + 4 * p3 + 8 * p4)) as u8
}

// A field of a stored cell, unless it is 0, at a place of out; the place after it.
fn put_field(stored: &[u8], field: Field, place: usize, out: &mut [u8]) -> usize
    requires bits_in_bounds { field.place + field.bits % 2 ≤ length stored.now }
    requires stored_in_bounds { place + bit (field_by field.bits (drop field.place stored.now)) ≤ length out.old }
    ensures value { result ≡ place + bit (field_by field.bits (drop field.place stored.now)) }
    ensures lower_bound { place ≤ result }
    ensures upper_bound { result ≤ place + 1 }
    ensures out_after { out.new ≡ lay out.old place (kept (field_by field.bits (drop field.place stored.now))) }
{
    put(field_at(stored, field.place, field.bits), place, out)
}

// The same where the next one goes over it if it is 0.
// Beside `put_field`, since a choice of whether to store would be a jump.
fn put_field_over(stored: &[u8], field: Field, place: usize, out: &mut [u8]) -> usize
    requires place_in_bounds { field.place < length stored.now }
    requires place_in_bounds_2 { place < length out.old }
    ensures value { result ≡ place + bit (field_by field.bits (drop field.place stored.now)) }
    ensures lower_bound { place ≤ result }
    ensures upper_bound { result ≤ place + 1 }
    ensures out_after { out.new ≡ set out.old place (field_by field.bits (drop field.place stored.now)) }
{
    put_over(field_over(stored, field.place, field.bits), place, out)
}

// The five bytes from a place on, as they stand.
// Five bytes in a stored form of no fixed length.
fn five_at(stored: &[u8], place: usize) -> &[u8; 5]
    requires { place + cell_size ≤ length stored.now }
    ensures { result.now ≡ five (drop place stored.now) }
{
    let (cells, _) = stored[place..place + 5].as_chunks::<5>();
    &cells[0]
}

// The stored cell at a place, which stands there whole, in its shortest form at the front of out; its length. If all five fields are stored
// they stand as those of a lent cell do; if not it is marked.
pub fn rewrite_cell(stored: &[u8], place: usize, out: &mut [u8]) -> usize
    requires place_in_bounds { place + length_by (get_or stored.now place 0) ≤ length stored.now }
    requires stored_in_bounds { length (write_cell (cell_at (drop place stored.now))) ≤ length out.old }
    ensures value { result ≡ length (write_cell (cell_at (drop place stored.now))) }
    ensures out_after { out.new ≡ in_front (write_cell (cell_at (drop place stored.now))) out.old }
{
    let fields = fields_of(stored[place], place);
    if fields.note.bits % 32 == 31 {
        return write_cell(five_at(stored, fields.note.place), out);
    }
    let p1 = put_field(stored, fields.note, 1, out);
    let p2 = put_field(stored, fields.instrument, p1, out);
    let p3 = put_field(stored, fields.volume, p2, out);
    let p4 = put_field(stored, fields.effect, p3, out);
    let p5 = put_field(stored, fields.parameter, p4, out);
    out[0] = lead_by(1, p1, p2, p3, p4, p5);
    p5
}

// Whether a stored cell goes plain: all five fields are stored, and go so. Both tests are made, with no jump between them.
// Five bytes in a stored form of no fixed length.
fn stored_plain(stored: &[u8], first: Field) -> bool
    requires { first.place + cell_size ≤ length stored.now }
    ensures { result ≡ (eqb (first.bits % 32) 31 && plain_by (get_or stored.now first.place 0) (length (kepts (five (drop first.place stored.now))))) }
{
    let from = first.place;
    let plain = plain_by(stored[from], kept_in(five_at(stored, from)));
    (first.bits % 32 == 31) & plain
}

// As `rewrite_cell` where six bytes stand at the place, with no branch: it may change the bytes behind the cell too, which the caller still
// has to write. The lead byte of a plain one goes there.
// Its place is one clause: in a struct every other clause would read through it.
pub fn rewrite_over(stored: &[u8], place: usize, out: &mut [u8]) -> usize
    requires place_in_bounds { place + 6 ≤ length stored.now }
    requires over_most_in_bounds { over_most ≤ length out.old }
    ensures value { result ≡ length (write_cell (cell_at (drop place stored.now))) }
    ensures over { Over (write_cell (cell_at (drop place stored.now))) out.old out.new }
{
    let fields = fields_of(stored[place], place);
    let p0 = first_place(stored_plain(stored, fields.note));
    let p1 = put_field_over(stored, fields.note, p0, out);
    let p2 = put_field_over(stored, fields.instrument, p1, out);
    let p3 = put_field_over(stored, fields.volume, p2, out);
    let p4 = put_field_over(stored, fields.effect, p3, out);
    let p5 = put_field_over(stored, fields.parameter, p4, out);
    out[5 - 5 * p0] = lead_by(p0, p1, p2, p3, p4, p5);
    p5
}
