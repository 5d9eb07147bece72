// A record read back, and the sample's data that it speaks of: functions that take the record by value.
ghost use Rattle.std.specs.Prelude.{◌≡◌};
ghost use Rattle.xm.specs.Answer.{number_of};
ghost use Rattle.xm.specs.Asking.{stretch_of, asking_rows};
ghost use Rattle.refusal.specs.Refusal.{outcome};
ghost use Rattle.asking.specs.Ask.{code_stretch};
ghost use Rattle.records.specs.Records.{rows_given};

use asking::{Stretch, ask_row, asked_refusal, asked_stretch};
use refusal::{Cause, Refusal};
use rows::sample::SampleRow;

// Asked as of a table that has this one row, or none if it was refused.
pub fn ask_record(file: &[u8], asked: Result<SampleRow, Refusal>) -> Result<Stretch, Refusal>
    ensures { result ≡ outcome code_stretch (asking_rows file.now (rows_given asked) 0) }
{
    let Ok(row) = asked else {
        return Err(Cause::Argument.at(0));
    };
    let stretch = Stretch {
        place: row.data_place as usize,
        length: row.length as usize,
    };
    ask_row(file, 1, 0, stretch)
}

// A sample's very stretch of the lent file, by what `row_at` gave; an empty one for a row refused, or one whose data isn't inside the
// file.
pub fn record_stretch(file: &[u8], asked: Result<SampleRow, Refusal>) -> &[u8]
    ensures { result.now ≡ stretch_of file.now (asking_rows file.now (rows_given asked) 0) }
{
    asked_stretch(file, ask_record(file, asked))
}

// Tells 0 from 16 for the same question.
// A number, since docs/PROMISES.md promises 0 or 16.
pub fn record_refusal(file: &[u8], asked: Result<SampleRow, Refusal>) -> u32
    ensures { result ≡ number_of (asking_rows file.now (rows_given asked) 0) }
{
    asked_refusal(ask_record(file, asked))
}
