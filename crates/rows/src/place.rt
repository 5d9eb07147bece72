// What stands at a place of an accepted file: a second pass, which makes no test again and reads no cell.
ghost use Rattle.std.specs.Prelude.{true, ◌≡◌, ◌≤◌, length, drop};
ghost use Rattle.xm.specs.Got.{accepted};
ghost use Rattle.xm.specs.Header.{kind_at};
ghost use Rattle.xm.specs.Instrument.{read_instrument};
ghost use Rattle.xm.specs.Module.{file_most};
ghost use Rattle.steps.specs.Step.{InstrumentIs};
ghost use Rattle.rows.specs.Accepted.{InstrumentsFrom};
ghost use Rattle.rows.specs.Place.{data_end, InstrumentHeadStands};

use crate::accepted::Accepted;
use heads::sample_head;
use steps::header::header_part;
use steps::instrument::{InstrumentHead, InstrumentPart, instrument_head};
use steps::pattern::pattern_head;

// Where the first instrument stands: patterns are stepped over by L + S.
pub fn first_instrument(accepted: Accepted) -> usize
    ensures { InstrumentsFrom accepted.entry.file.now result }
{
    let file = accepted.file;
    let counts = header_part(file);
    let mut place = counts.start;
    for _ in 0..counts.patterns {
        let pattern = pattern_head(file, place);
        place = pattern.place + pattern.size;
    }
    place
}

// Where the data of an instrument's samples end.
pub fn data_end(file: &[u8], instrument: InstrumentHead) -> usize
    requires { InstrumentHeadStands file.now instrument }
    ensures { result ≡ data_end file.now instrument }
{
    let count = instrument.samples;
    let size = instrument.head_size;
    let mut head = instrument.heads;
    let mut place = head + count * size;
    for _ in 0..count {
        place += sample_head(file, head, size).data_size();
        head += size;
    }
    place
}

// What the instrument step gives of the instrument at a place, which it accepts. The file's size is one clause here and where a row's numbers
// are stored: in a struct every other clause would read the file through it.
pub fn part_at(file: &[u8], place: usize) -> InstrumentPart
    requires file_len_bound { length file.now ≤ file_most }
    requires file_value { accepted (read_instrument (kind_at file.now) place (drop place file.now)) ≡ true }
    ensures { InstrumentIs file.now place result }
{
    let head = instrument_head(file, place);
    let next = data_end(file, head);
    InstrumentPart {
        size: head.heads - place,
        samples: head.samples,
        head_size: head.head_size,
        next,
    }
}
