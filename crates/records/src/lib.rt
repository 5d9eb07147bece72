// The sample table as a lent row of records, thin over the flat core. What is asked with a row that was read back takes it by value.
#![tactic(auto)]

pub mod row;

ghost use Rattle.std.specs.Prelude.{◌≡◌, ◌≤◌, length, take};
ghost use Rattle.xm.specs.Answer.{in_front};
ghost use Rattle.refusal.specs.Refusal.{outcome};
ghost use Rattle.walk.specs.File.{code_module};
ghost use Rattle.tables.specs.Into.{patterns_after, instruments_after};
ghost use Rattle.rows.specs.Place.{code_row};
ghost use Rattle.records.specs.Records.{rows_of, records_in, checked_records, records_after, row_asking_in};

use refusal::{Cause, Refusal};
use rows::sample::{SampleRow, first_sought, row_step};
use tables::check_beside;
use walk::Module;

// A row read back; 16 for a number at or above the rows lent.
pub fn row_at(samples: &[SampleRow], number: usize) -> Result<SampleRow, Refusal>
    ensures { result ≡ outcome code_row (row_asking_in (rows_of samples.now) number) }
{
    samples.get(number).copied().ok_or(Cause::Argument.at(0))
}

// Stores the records of the first samples, `count` of them.
// Told how many: more rows may be lent than there are samples.
fn store_records(file: &[u8], samples: &mut [SampleRow], count: usize)
    requires { (count ≤ length (records_in file.now)) × (count ≤ length samples.old) }
    ensures { samples.new ≡ in_front (take count (records_in file.now)) samples.old }
{
    let mut from = first_sought(file, count);
    for number in 0..count {
        let step = row_step(file, from);
        samples[number] = step.row;
        from = step.next;
    }
}

// The check of a file, which fills the flat pattern and instrument tables and the row of records once nothing can be refused any
// more. Lent as a slice of records: a rule of the project.
pub fn check_records(
    file: &[u8],
    patterns: &mut [u32],
    instruments: &mut [u32],
    samples: &mut [SampleRow],
) -> Result<Module, Refusal>
    ensures { (result ≡ outcome code_module (checked_records file.now patterns.old instruments.old samples.old))
        × (patterns.new ≡ patterns_after (checked_records file.now patterns.old instruments.old samples.old) patterns.old)
        × (instruments.new ≡ instruments_after (checked_records file.now patterns.old instruments.old samples.old) instruments.old)
        × (samples.new ≡ records_after (checked_records file.now patterns.old instruments.old samples.old) samples.old) }
{
    let found = check_beside(file, patterns, instruments, samples.len())?;
    store_records(file, samples, found.samples);
    Ok(found)
}
