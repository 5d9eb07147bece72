// The tables of an accepted file, filled in a second pass.
#![tactic(auto)]

pub mod fill;

ghost use Rattle.std.specs.Prelude.{◌≡◌, ◌/◌, min, length, get_or};
ghost use Rattle.xm.specs.Table.{sample_stride, tune_stride, checking_into};
ghost use Rattle.refusal.specs.Refusal.{outcome};
ghost use Rattle.refusal.specs.Test.{tested};
ghost use Rattle.walk.specs.File.{code_module};
ghost use Rattle.tables.specs.Into.{lent, checked_into, tables_then, room_beside, room_tests_of, patterns_after, instruments_after};

use asking::SAMPLE_STRIDE;
use fill::{INSTRUMENT_STRIDE, PATTERN_STRIDE, fill_instruments, fill_patterns, fill_samples};
use refusal::{Cause, Refusal, ensure};
use rows::accepted::Accepted;
use rows::sample::TUNE_STRIDE;
use walk::{Module, check};

// How many rows are lent for samples: seven numbers to a row, and apart its two tunes. What is left of a last row that is not whole
// counts for none.
// A stride divides, since only how many whole rows there are is asked.
fn rows_lent(samples: usize, tunes: usize) -> usize
    ensures { result ≡ min (samples / sample_stride) (tunes / tune_stride) }
{
    (samples / SAMPLE_STRIDE).min(tunes / TUNE_STRIDE)
}

// The tests of the room, in their order: a row for each structure, of the pattern and instrument tables by their numbers, of the samples'
// by its rows.
// A stride divides, since only how many whole rows there are is asked.
fn room_tests(found: Module, patterns: usize, instruments: usize, rows: usize) -> Result<(), Cause>
    ensures { result ≡ tested (room_tests_of (room_beside patterns instruments rows) found) }
{
    ensure(found.patterns <= patterns / PATTERN_STRIDE, Cause::NoRoom)?;
    ensure(
        found.instruments <= instruments / INSTRUMENT_STRIDE,
        Cause::NoRoom,
    )?;
    ensure(found.samples <= rows, Cause::NoRoom)
}

// The check of a file beside so many rows for its samples, which are filled apart: once nothing can be refused any more it fills the
// pattern and instrument tables, three numbers to a row.
pub fn check_beside(
    file: &[u8],
    patterns: &mut [u32],
    instruments: &mut [u32],
    rows: usize,
) -> Result<Module, Refusal>
    ensures answer { result ≡ outcome code_module (checking_into (room_beside (length patterns.old) (length instruments.old) rows) file.now) }
    ensures patterns { patterns.new
        ≡ patterns_after (checking_into (room_beside (length patterns.old) (length instruments.old) rows) file.now) patterns.old }
    ensures instruments { instruments.new
        ≡ instruments_after (checking_into (room_beside (length patterns.old) (length instruments.old) rows) file.now) instruments.old }
{
    let found = check(file)?;
    if let Err(cause) = room_tests(found, patterns.len(), instruments.len(), rows) {
        return Err(cause.at(0));
    }
    let accepted = Accepted { file };
    let start = fill_patterns(accepted, patterns);
    fill_instruments(accepted, start, instruments);
    Ok(found)
}

// The first number of a table; 0 of an empty one.
fn first_number(table: &[u32]) -> usize
    ensures { result ≡ get_or table.now 0 0 }
{
    table.first().map_or(0, |number| *number as usize)
}

// The check of a file, which fills the three tables once nothing can be refused any more: three numbers to a pattern, three to an
// instrument; of a sample seven, and its two tunes apart.
// Samples and tunes apart, as C lends them.
pub fn check_into(
    file: &[u8],
    patterns: &mut [u32],
    instruments: &mut [u32],
    samples: &mut [u32],
    tunes: &mut [i8],
) -> Result<Module, Refusal>
    ensures answer { result ≡ outcome code_module (checked_into file.now (lent patterns.old instruments.old samples.old tunes.old)) }
    ensures memory { lent patterns.new instruments.new samples.new tunes.new
        ≡ tables_then file.now (lent patterns.old instruments.old samples.old tunes.old) }
{
    let rows = rows_lent(samples.len(), tunes.len());
    let found = check_beside(file, patterns, instruments, rows)?;
    // A row of the instrument table begins with the instrument's place.
    let start = first_number(instruments);
    fill_samples(file, start, found.samples, samples, tunes);
    Ok(found)
}
