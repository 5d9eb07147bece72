// A refusal as the calls answer it, and its causes; a step of the walk over a file; and tests that are tried in order.
#![tactic(auto)]

ghost use Rattle.std.specs.Prelude.{◌≡◌};
ghost use Rattle.refusal.specs.Refusal.{refusal_at, step_refusal};
ghost use Rattle.refusal.specs.Test.{number_of, ensured};

// Why something is refused, by its number in the rules.
#[derive(Clone, Copy, Debug, PartialEq, Eq)]
pub enum Cause {
    PastEnd = 1,
    FileTooLong = 2,
    NoKind = 3,
    HeaderSize = 4,
    Count = 5,
    PatternHeader = 6,
    CellCut = 7,
    BytesLeft = 8,
    // Given no more; old logs have it.
    Note = 9,
    InstrumentHeader = 10,
    SampleHeaderSize = 11,
    WideAdpcm = 12,
    SampleHeader = 13,
    NoRoom = 14,
    PackedSize = 15,
    Argument = 16,
}

// A cause's number, and a place. Whoever answers for any refusal is handed any number.
#[derive(Clone, Copy, Debug, PartialEq, Eq)]
pub struct Refusal {
    pub number: u32,
    pub place: usize,
}

impl Cause {
    // Its number in the rules, as the loader is told it.
    pub fn number(self) -> u32
        ensures { result ≡ number_of self }
    {
        self as u32
    }

    // The refusal for this cause.
    pub fn at(self, place: usize) -> Refusal
        ensures { result ≡ refusal_at self place }
    {
        Refusal {
            number: self.number(),
            place,
        }
    }
}

// What has to hold, or the cause of a refusal.
pub fn ensure(holds: bool, cause: Cause) -> Result<(), Cause>
    ensures { result ≡ ensured holds cause }
{
    if holds { Ok(()) } else { Err(cause) }
}

// "either a value with the next place, or a refusal": a rule of the project. The value tells the next place.
#[derive(Clone, Copy, Debug, PartialEq, Eq)]
pub enum Step<T> {
    Given(T),
    Refused(Refusal),
}

impl<T: Copy> Step<T> {
    // The refusal, to be passed on; where something was given, number 0 and place 0.
    pub fn refusal(self) -> Refusal
        ensures { result ≡ step_refusal self }
    {
        match self {
            Step::Given(_) => Refusal {
                number: 0,
                place: 0,
            },
            Step::Refused(refusal) => refusal,
        }
    }
}
