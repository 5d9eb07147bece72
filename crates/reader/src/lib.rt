// The small reader over a file: it hands over one structure's kind and place at a call, and remembers how far it has read. The work is
// done by functions on a plain slice and numbers; over the reader itself there are only calls and a store.
#![tactic(auto)]

pub mod count;

ghost use Rattle.std.specs.Prelude.{◌≡◌};

use refusal::Refusal;
use structures::{Ahead, Structure, hand, start};

// The place is how far it has read: what is left, and where that begins; on a refused file the check's refusal.
// A struct of the file's slice and a place: a rule of the project.
// It holds a slice: no equality or printing of its own.
#[derive(Clone, Copy)]
pub struct Reader<'a> {
    pub file: &'a [u8],
    pub place: Result<Ahead, Refusal>,
}

impl<'a> Reader<'a> {
    ghost use Rattle.xm.specs.Structure.{started, called, read_on};
    ghost use Rattle.refusal.specs.Refusal.{outcome};
    ghost use Rattle.structures.specs.Handing.{standing_in, ahead_of, reached_in};

    // A reader that has read nothing yet. The file is checked here, once.
    pub fn from_start(file: &'a [u8]) -> Reader<'a>
        ensures { (result.file ≡ file.entry) × (result.place ≡ outcome ahead_of (started file.now)) }
    {
        let place = start(file);
        Reader { file, place }
    }

    // Hands over the next structure, or none at the end; on a refused file the check's refusal.
    pub fn next(&mut self) -> Result<Option<Structure>, Refusal>
        ensures { (result ≡ outcome standing_in (called self.old.file.now (reached_in self.old.place)))
            × (self.new.file ≡ self.old.file)
            × (self.new.place ≡ outcome ahead_of (read_on self.old.file.now (reached_in self.old.place))) }
    {
        let step = hand(self.file, self.place);
        self.place = step.reached;
        step.standing
    }
}
