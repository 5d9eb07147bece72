// The structures of a file counted by kind, with a reader that is run to the end.
ghost use Rattle.std.specs.Prelude.{◌≡◌, ◌+◌, ◌<◌, ◌^◌};
ghost use Rattle.xm.specs.Structure.{started};
ghost use Rattle.refusal.specs.Refusal.{outcome};
ghost use Rattle.structures.specs.Handing.{ahead_of};
ghost use Rattle.reader.specs.Count.{counting};

use crate::Reader;
use refusal::Refusal;
use structures::{Ahead, StructureKind, start};

// How many structures there are of each kind.
#[derive(Clone, Copy, Debug, PartialEq, Eq)]
pub struct Counts {
    pub patterns: usize,
    pub instruments: usize,
    pub samples: usize,
}

impl Counts {
    ghost use Rattle.reader.specs.Count.{total, one_more};

    // One structure more of a kind.
    fn add(&mut self, kind: StructureKind)
        requires { total self.old + 1 < 2 ^ 64 }
        ensures { self.new ≡ one_more self.old kind }
    {
        match kind {
            StructureKind::Pattern => self.patterns += 1,
            StructureKind::Instrument => self.instruments += 1,
            StructureKind::SampleHeader => self.samples += 1,
        }
    }
}

// The numbers of patterns, instruments and sample headers: a reader that has read nothing yet is run to the end, and what it hands over is
// counted. On a refused file the check's refusal.
pub fn count_from(file: &[u8], place: Result<Ahead, Refusal>) -> Result<Counts, Refusal>
    requires { place ≡ outcome ahead_of (started file.now) }
    ensures { result ≡ outcome (λ counts. counts) (counting file.now) }
{
    let mut reader = Reader { file, place };
    let mut counts = Counts {
        patterns: 0,
        instruments: 0,
        samples: 0,
    };
    while let Some(structure) = reader.next()? {
        counts.add(structure.kind);
    }
    Ok(counts)
}

// The same, and the file is checked here, once.
pub fn count_structures(file: &[u8]) -> Result<Counts, Refusal>
    ensures { result ≡ outcome (λ counts. counts) (counting file.now) }
{
    let place = start(file);
    count_from(file, place)
}
