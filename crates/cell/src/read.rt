// One stored cell: its length and its fields by its lead byte, where it ends or why it is refused, and how short it can be.
ghost use Rattle.std.specs.Prelude.{◌≡◌, ◌+◌, ◌%◌, ◌<◌, ◌≤◌, cond, length, get_or, drop};
ghost use Rattle.xm.specs.Cell.{cell_size, five, length_by, field_by, cell_at, read_cell, bit, kepts, plain_by};
ghost use Rattle.xm.specs.Short.{shortest_by};
ghost use Rattle.refusal.specs.Refusal.{place_step};
ghost use Rattle.cell.specs.Read.{bits_by, fields_from, FirstField, NextField, FieldsOf, cell_of, kept_count};

use refusal::{Cause, Step};

#[derive(Clone, Copy, Debug, PartialEq, Eq)]
pub struct Cell {
    pub note: u8,
    pub instrument: u8,
    pub volume: u8,
    pub effect: u8,
    pub parameter: u8,
}

// A field of a stored cell: it stands at its place if the lowest of its bits says so.
#[derive(Clone, Copy, Debug, PartialEq, Eq)]
pub struct Field {
    pub place: usize,
    pub bits: u8,
}

// A cell's five, one behind the other.
#[derive(Clone, Copy, Debug, PartialEq, Eq)]
pub struct Fields {
    pub note: Field,
    pub instrument: Field,
    pub volume: Field,
    pub effect: Field,
    pub parameter: Field,
}

// One of two bytes, both of which are there: the choice needs no jump.
// A plain test, and no kind.
pub fn chosen(test: bool, yes: u8, no: u8) -> u8
    ensures { result ≡ cond test yes no }
{
    if test { yes } else { no }
}

// The bits of its fields: a plain cell has all five.
pub fn bits_by(lead: u8) -> u8
    ensures { result ≡ bits_by lead }
{
    chosen(lead < 128, 31, lead)
}

// How far behind its lead byte they begin: a plain cell's note is its lead byte.
#[tactic(auto, unfolding(crate::specs::Read::fields_from))]
pub fn fields_from(lead: u8) -> usize
    ensures value { result ≡ fields_from lead }
    ensures upper_bound { result ≤ 1 }
{
    usize::from(128 <= lead)
}

// The bytes that a cell takes: "one more than the number of ones", and those of a plain cell too, with no jump.
#[tactic(auto, using(crate::proofs::ReadLaws::length_ones))]
pub fn cell_length(lead: u8) -> usize
    ensures { result ≡ length_by lead }
{
    let bits = bits_by(lead);
    fields_from(lead) + (bits & 31).count_ones() as usize
}

// A field, which stands at `place` if the lowest bit says so.
pub fn field_at(stored: &[u8], place: usize, bits: u8) -> u8
    requires { place + bits % 2 ≤ length stored.now }
    ensures { result ≡ field_by bits (drop place stored.now) }
{
    if bits % 2 == 0 { 0 } else { stored[place] }
}

// The same where a byte stands at `place` in any case: it is there before the choice, which so needs no jump.
pub fn field_over(stored: &[u8], place: usize, bits: u8) -> u8
    requires { place < length stored.now }
    ensures { result ≡ field_by bits (drop place stored.now) }
{
    chosen(bits % 2 == 0, 0, stored[place])
}

// The first field of the cell at a place, and the one behind another.
pub fn first_field(lead: u8, place: usize) -> Field
    requires { place + 1 ≤ 18446744073709551615 }
    ensures { FirstField lead place result }
{
    Field {
        place: place + fields_from(lead),
        bits: bits_by(lead),
    }
}

// The field behind one: its bit, and its place if this one is stored.
pub fn next_field(field: Field) -> Field
    requires { field.place + field.bits % 2 ≤ 18446744073709551615 }
    ensures { NextField field result }
{
    Field {
        place: field.place + usize::from(field.bits % 2),
        bits: field.bits / 2,
    }
}

// The five fields of the cell at a place, by its lead byte.
pub fn fields_of(lead: u8, place: usize) -> Fields
    requires { place + 6 ≤ 18446744073709551615 }
    ensures { FieldsOf lead place result }
{
    let note = first_field(lead, place);
    let instrument = next_field(note);
    let volume = next_field(instrument);
    let effect = next_field(volume);
    Fields {
        note,
        instrument,
        volume,
        effect,
        parameter: next_field(effect),
    }
}

// Where the cell at a place ends: behind its last field, for loops that look for the fields anyhow.
pub fn cell_end(lead: u8, place: usize) -> usize
    requires { place + 6 ≤ 18446744073709551615 }
    ensures { result ≡ place + length_by lead }
{
    next_field(fields_of(lead, place).parameter).place
}

// The cell at a place, which stands there whole.
pub fn take_cell(stored: &[u8], place: usize) -> Cell
    requires { place + length_by (get_or stored.now place 0) ≤ length stored.now }
    ensures { result ≡ cell_of (cell_at (drop place stored.now)) }
{
    let fields = fields_of(stored[place], place);
    Cell {
        note: field_at(stored, fields.note.place, fields.note.bits),
        instrument: field_at(stored, fields.instrument.place, fields.instrument.bits),
        volume: field_at(stored, fields.volume.place, fields.volume.bits),
        effect: field_at(stored, fields.effect.place, fields.effect.bits),
        parameter: field_at(stored, fields.parameter.place, fields.parameter.bits),
    }
}

// The cell at a place where six bytes stand, with no branch. An array of six would say so without a clause, and every caller has the place.
pub fn take_over(stored: &[u8], place: usize) -> Cell
    requires { place + 6 ≤ length stored.now }
    ensures { result ≡ cell_of (cell_at (drop place stored.now)) }
{
    let fields = fields_of(stored[place], place);
    Cell {
        note: field_over(stored, fields.note.place, fields.note.bits),
        instrument: field_over(stored, fields.instrument.place, fields.instrument.bits),
        volume: field_over(stored, fields.volume.place, fields.volume.bits),
        effect: field_over(stored, fields.effect.place, fields.effect.bits),
        parameter: field_over(stored, fields.parameter.place, fields.parameter.bits),
    }
}

// The cell at a place, tried for 7: where it ends.
pub fn try_cell(stored: &[u8], place: usize) -> Step<usize>
    requires { place ≤ length stored.now }
    ensures { result ≡ place_step place (read_cell place (drop place stored.now)) }
{
    let left = stored.len() - place;
    if left == 0 {
        return Step::Refused(Cause::CellCut.at(place));
    }
    let lead = stored[place];
    let used = cell_length(lead);
    if left < used {
        return Step::Refused(Cause::CellCut.at(place));
    }
    Step::Given(place + used)
}

// How many of five fields aren't 0: a marked form keeps these.
fn kept_of(note: u8, instrument: u8, volume: u8, effect: u8, parameter: u8) -> usize
    ensures { result ≡ bit note + (bit instrument + (bit volume + (bit effect + bit parameter))) }
{
    usize::from(note != 0)
        + usize::from(instrument != 0)
        + usize::from(volume != 0)
        + usize::from(effect != 0)
        + usize::from(parameter != 0)
}

// How many of a cell's fields its marked form keeps.
pub fn kept_count(cell: Cell) -> usize
    ensures { result ≡ kept_count cell }
{
    kept_of(
        cell.note,
        cell.instrument,
        cell.volume,
        cell.effect,
        cell.parameter,
    )
}

// The same of a lent cell.
#[tactic(auto, using(crate::proofs::ReadLaws::kepts_in))]
pub fn kept_in(cell: &[u8; 5]) -> usize
    ensures { result ≡ length (kepts cell.now) }
{
    kept_of(cell[0], cell[1], cell[2], cell[3], cell[4])
}

// Whether a cell goes plain, by its note and by how many fields its marked form keeps: "A note of 128 or more can only be stored marked".
#[tactic(auto, unfolding(xm::specs::Cell::plain_by, xm::specs::Cell::stands_plain, xm::specs::Cell::plain_shorter))]
pub fn plain_by(note: u8, kept: usize) -> bool
    ensures { result ≡ plain_by note kept }
{
    note < 128 && 4 < kept
}

// The length of a cell's shortest form.
pub fn shortest_by(note: u8, kept: usize) -> usize
    requires { kept ≤ 5 }
    ensures { result ≡ shortest_by note kept }
{
    if plain_by(note, kept) { 5 } else { 1 + kept }
}
