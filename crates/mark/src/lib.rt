// What the walk leaves for a second pass over the patterns: a mark for each.
#![tactic(auto)]

ghost use Rattle.std.specs.Prelude.{◌≡◌, ◌≤◌, ◌<◌, length};
ghost use Rattle.mark.specs.Mark.{mark_by, mark_from, number_of, with_two, bits_of, pattern_mark, Put};

// A second pass writes the cells again, copies them as they stand, or writes nothing.
#[derive(Clone, Copy, Debug, PartialEq, Eq)]
pub enum Mark {
    Again = 0,
    Copied = 1,
    Nothing = 2,
}

// A number that no mark has.
#[derive(Clone, Copy, Debug, PartialEq, Eq)]
pub struct UnknownMark(pub u64);

impl Mark {
    // Its number, which takes two bits.
    pub fn number(self) -> u64
        ensures { result ≡ number_of self }
    {
        self as u64
    }
}

impl TryFrom<u64> for Mark {
    type Error = UnknownMark;

    ghost try_from_gives = { λ number result. result ≡ mark_from number };

    fn try_from(number: u64) -> Result<Self, UnknownMark> {
        match number {
            0 => Ok(Mark::Again),
            1 => Ok(Mark::Copied),
            2 => Ok(Mark::Nothing),
            _ => Err(UnknownMark(number)),
        }
    }
}

// What a second pass does with a pattern.
// Whether they stand so already is yes or no: an enum of two says no more.
pub fn mark_of(shortest: usize, same: bool) -> Mark
    ensures { result ≡ mark_by shortest same }
{
    if shortest == 0 {
        Mark::Nothing
    } else if same {
        Mark::Copied
    } else {
        Mark::Again
    }
}

// How many bits of its eight stand below a pattern's mark.
fn bits_of(number: usize) -> usize
    ensures { result ≡ bits_of number }
{
    number % 32 * 2
}

// The number of a pattern's mark. Any two bits may be asked for, also those that are no mark's.
pub fn mark_at(marks: &[u64; 8], number: usize) -> u64
    requires { number < 256 }
    ensures { result ≡ pattern_mark marks.now number }
{
    (marks[number / 32] >> bits_of(number)) % 4
}

// An eight with a mark behind so many bits.
// A number and no `Mark`: the clause takes any below 4.
fn with_mark(eight: u64, bits: usize, mark: u64) -> u64
    requires bits_bound { bits ≤ 62 }
    requires mark_bound { mark < 4 }
    ensures { result ≡ with_two eight bits mark }
{
    let found = (eight >> bits) % 4;
    eight - (found << bits) + (mark << bits)
}

// A pattern is marked by a number of two bits, and the other marks stay.
// A number and no `Mark`: the clause takes any below 4. Two bits each are the 64 bytes of stack that the header for C states.
pub fn put_mark(marks: &mut [u64; 8], number: usize, mark: u64)
    requires number_bound { number < 256 }
    requires mark_bound { mark < 4 }
    ensures { Put marks.old number mark marks.new }
{
    let place = number / 32;
    marks[place] = with_mark(marks[place], bits_of(number), mark);
}
