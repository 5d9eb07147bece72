// The three tables of an accepted file, each filled by a second pass, in a lent table that has the room.
ghost use Rattle.std.specs.Prelude.{◌≡◌, ◌+◌, ◌<◌, ◌≤◌, [], ◌∷◌, length};
ghost use Rattle.xm.specs.Got.{list_in};
ghost use Rattle.xm.specs.Format.{joined};
ghost use Rattle.xm.specs.Answer.{in_front};
ghost use Rattle.xm.specs.Lay.{lay};
ghost use Rattle.xm.specs.Module.{read_file};
ghost use Rattle.xm.specs.Table.{pattern_rows, instrument_rows, sample_rows, pattern_numbers, instrument_numbers, sample_numbers, sample_tunes};
ghost use Rattle.rows.specs.Accepted.{InstrumentsFrom};

use rows::accepted::Accepted;
use rows::place::data_end;
use rows::sample::{put_sample, row_step, sought_from};
use steps::header::header_part;
use steps::instrument::instrument_head;
use steps::pattern::pattern_head;

// Numbers to a row.
pub const PATTERN_STRIDE: usize = 3;

pub const INSTRUMENT_STRIDE: usize = 3;

// Stores a row of three numbers from `to` on, by index: as_chunks_mut does not say what the table ends as.
fn put_three(table: &mut [u32], to: usize, first: u32, second: u32, third: u32)
    requires { to + 3 ≤ length table.old }
    ensures { table.new ≡ lay table.old to (first ∷ second ∷ third ∷ []) }
{
    table[to] = first;
    table[to + 1] = second;
    table[to + 2] = third;
}

// Patterns: data place, S, rows it reads as. The answer is where the instruments start.
pub fn fill_patterns(accepted: Accepted, table: &mut [u32]) -> usize
    requires { length (joined pattern_numbers (list_in pattern_rows (read_file accepted.file.now))) ≤ length table.old }
    ensures start { InstrumentsFrom accepted.entry.file.now result }
    ensures table { table.new ≡ in_front (joined pattern_numbers (list_in pattern_rows (read_file accepted.entry.file.now))) table.old }
{
    let file = accepted.file;
    let counts = header_part(file);
    let mut place = counts.start;
    for number in 0..counts.patterns {
        let pattern = pattern_head(file, place);
        put_three(
            table,
            PATTERN_STRIDE * number,
            pattern.place as u32,
            pattern.size as u32,
            pattern.rows as u32,
        );
        place = pattern.place + pattern.size;
    }
    place
}

// Instruments, from `start` on: place, k, number of its first sample, or of the next sample if k = 0.
pub fn fill_instruments(accepted: Accepted, start: usize, table: &mut [u32])
    requires instruments_from { InstrumentsFrom accepted.file.now start }
    requires file_in_bounds { length (joined instrument_numbers (list_in instrument_rows (read_file accepted.file.now))) ≤ length table.old }
    ensures { table.new ≡ in_front (joined instrument_numbers (list_in instrument_rows (read_file accepted.entry.file.now))) table.old }
{
    let file = accepted.file;
    let counts = header_part(file);
    let mut place = start;
    let mut first: usize = 0;
    for number in 0..counts.instruments {
        let instrument = instrument_head(file, place);
        let samples = instrument.samples;
        put_three(
            table,
            INSTRUMENT_STRIDE * number,
            place as u32,
            samples as u32,
            first as u32,
        );
        place = data_end(file, instrument);
        first += samples;
    }
}

// Samples, `count` in all, of the instruments from `start` on: header place, data place, length in bytes, width, loop kind, loop start,
// loop length; and apart, finetune and relative note.
// Samples and tunes apart, as C lends them.
pub fn fill_samples(file: &[u8], start: usize, count: usize, table: &mut [u32], tunes: &mut [i8])
    requires instruments_from { 0 < count → InstrumentsFrom file.now start }
    requires count_value { count ≡ length (list_in sample_rows (read_file file.now)) }
    requires file_in_bounds { length (joined sample_numbers (list_in sample_rows (read_file file.now))) ≤ length table.old }
    requires file_in_bounds_2 { length (joined sample_tunes (list_in sample_rows (read_file file.now))) ≤ length tunes.old }
    ensures table_after { table.new ≡ in_front (joined sample_numbers (list_in sample_rows (read_file file.now))) table.old }
    ensures tunes_after { tunes.new ≡ in_front (joined sample_tunes (list_in sample_rows (read_file file.now))) tunes.old }
{
    let mut from = sought_from(start);
    for number in 0..count {
        let step = row_step(file, from);
        put_sample(table, tunes, number, step.row);
        from = step.next;
    }
}
