// A sample asked for by number, of a table over flat numbers, or by the numbers of its row.
#![tactic(auto)]

ghost use Rattle.std.specs.Prelude.{◌≡◌, ◌+◌, ◌≤◌, length};
ghost use Rattle.xm.specs.Number.{part};
ghost use Rattle.xm.specs.Answer.{number_of};
ghost use Rattle.xm.specs.Asking.{asking, stretch_of, asking_flat};
ghost use Rattle.refusal.specs.Refusal.{outcome};
ghost use Rattle.asking.specs.Ask.{code_stretch, paper_stretch, AskedInside, stretch_asked, refusal_asked};

use refusal::{Cause, Refusal};

// Numbers to a sample's row in a table over flat numbers.
pub const SAMPLE_STRIDE: usize = 7;

// Where a sample's data lies.
#[derive(Clone, Copy, Debug, PartialEq, Eq)]
pub struct Stretch {
    pub place: usize,
    pub length: usize,
}

impl Stretch {
    // Its bytes in a file that it lies inside.
    pub fn of(self, file: &[u8]) -> &[u8]
        requires { self.place + self.length ≤ length file.now }
        ensures { result.now ≡ part self.place self.length file.now }
    {
        &file[self.place..self.place + self.length]
    }
}

// The data that a row speaks of, `rows` being lent: 16 for a number at or above them, or if the data isn't inside the file.
#[tactic(auto, using(crate::proofs::AskLaws::asks))]
pub fn ask_row(file: &[u8], rows: usize, number: usize, row: Stretch) -> Result<Stretch, Refusal>
    ensures { result ≡ outcome code_stretch (asking file.now rows number (paper_stretch row)) }
{
    if number < rows && row.place <= file.len() && row.length <= file.len() - row.place {
        Ok(row)
    } else {
        Err(Cause::Argument.at(0))
    }
}

// What was asked for, as the very stretch of the lent file; or an empty one.
pub fn asked_stretch(file: &[u8], asked: Result<Stretch, Refusal>) -> &[u8]
    requires { AskedInside file.now asked }
    ensures { result.now ≡ stretch_asked file.now asked }
{
    match asked {
        Ok(stretch) => stretch.of(file),
        Err(_) => &[],
    }
}

// 0, or the refusal's number, as `sample_refusal` and `record_refusal` promise it.
pub fn asked_refusal(asked: Result<Stretch, Refusal>) -> u32
    ensures { result ≡ refusal_asked asked }
{
    match asked {
        Ok(_) => 0,
        Err(refusal) => refusal.number,
    }
}

// The place and length of a sample's data; 16 for a number at or above the rows lent, or a row whose data isn't inside the file.
pub fn ask_sample(file: &[u8], samples: &[u32], number: usize) -> Result<Stretch, Refusal>
    ensures { result ≡ outcome code_stretch (asking_flat file.now samples.now number) }
{
    let (rows, _) = samples.as_chunks::<SAMPLE_STRIDE>();
    let row = rows.get(number).ok_or(Cause::Argument.at(0))?;
    let stretch = Stretch {
        place: row[1] as usize,
        length: row[2] as usize,
    };
    ask_row(file, rows.len(), number, stretch)
}

// The very stretch of the lent file, or an empty one.
pub fn sample_stretch<'a>(file: &'a [u8], samples: &[u32], number: usize) -> &'a [u8]
    ensures { result.now ≡ stretch_of file.now (asking_flat file.now samples.now number) }
{
    asked_stretch(file, ask_sample(file, samples, number))
}

// Tells 0 from 16 for the same question.
// A number, since docs/PROMISES.md promises 0 or 16.
pub fn sample_refusal(file: &[u8], samples: &[u32], number: usize) -> u32
    ensures { result ≡ number_of (asking_flat file.now samples.now number) }
{
    asked_refusal(ask_sample(file, samples, number))
}
