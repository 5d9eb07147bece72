// The pattern step.
ghost use Rattle.std.specs.Prelude.{◌≡◌, ◌+◌, ◌^◌, ◌≤◌, ◌<◌, length, drop};
ghost use Rattle.xm.specs.PatternInFile.{least_pattern, pattern_tests, read_pattern};
ghost use Rattle.xm.specs.Stored.{channels_most};
ghost use Rattle.refusal.specs.Refusal.{step_by, place_step};
ghost use Rattle.steps.specs.Step.{tested_for, pattern_head, pattern_given, refusal_from};

use measure::read_stored;
use refusal::{Cause, Refusal, Step, ensure};
use scan::scan_stored;
use slices::read::read;

// How many channels a module has that passed the header's tests.
#[derive(Clone, Copy, Debug, PartialEq, Eq)]
pub struct Channels {
    pub count: usize,
    ghost in_range: { (1 ≤ count) × (count ≤ channels_most) },
}

// The bytes of a pattern's shortest stored form and whether it stands in that form already, as it was measured, and where the next structure
// starts.
#[derive(Clone, Copy, Debug, PartialEq, Eq)]
pub struct PatternPart {
    pub shortest: usize,
    pub same: bool,
    pub next: usize,
}

// What its header tells: where its data stand, how many bytes, and its rows.
#[derive(Clone, Copy, Debug, PartialEq, Eq)]
pub struct PatternHead {
    pub place: usize,
    pub size: usize,
    pub rows: usize,
}

// In a file the place is counted from its start, and `base` is that of the cells' first byte.
// A sum, and no shape of a Result: the number stays, the place moves.
fn refusal_from(base: usize, refusal: Refusal) -> Refusal
    requires { base + refusal.place < 2 ^ 64 }
    ensures { result ≡ refusal_from base refusal }
{
    Refusal {
        place: base + refusal.place,
        ..refusal
    }
}

// The header, where its 9 bytes are present.
pub fn pattern_head(file: &[u8], at: usize) -> PatternHead
    requires { at + least_pattern ≤ length file.now }
    ensures { result ≡ pattern_head at (drop at file.now) }
{
    PatternHead {
        place: at + read::<u32>(file, at, 0),
        size: read::<u16>(file, at, 7),
        rows: read::<u16>(file, at, 5),
    }
}

// The header by its tests in their order: 9 bytes present, 6, its L + S bytes present.
fn tried_head(file: &[u8], at: usize) -> Result<PatternHead, Cause>
    requires { at ≤ length file.now }
    ensures { result ≡ tested_for (pattern_tests at (drop at file.now)) (pattern_head at (drop at file.now)) }
{
    ensure(9 <= file.len() - at, Cause::PastEnd)?;
    let head = pattern_head(file, at);
    ensure(at + 9 <= head.place, Cause::PatternHeader)?;
    ensure((1..=256).contains(&head.rows), Cause::PatternHeader)?;
    ensure(head.place + head.size <= file.len(), Cause::PastEnd)?;
    Ok(head)
}

// That its place is in the file is one clause, as of an instrument. A pattern, tried and measured: its first refusal, or what the press needs of it.
pub fn read_pattern(file: &[u8], at: usize, channels: Channels) -> Step<PatternPart>
    requires { at ≤ length file.now }
    ensures { result ≡ step_by (pattern_given file.now at) (read_pattern channels.count at (drop at file.now)) }
{
    let head = match tried_head(file, at) {
        Ok(head) => head,
        Err(cause) => return Step::Refused(cause.at(at)),
    };
    let place = head.place;
    let next = place + head.size;
    let step = read_stored(&file[place..next], head.rows, channels.count);
    let Step::Given(stored) = step else {
        return Step::Refused(refusal_from(place, step.refusal()));
    };
    Step::Given(PatternPart {
        shortest: stored.shortest,
        same: stored.same,
        next,
    })
}

// A pattern that is only tried: where the next structure starts. What this and `read_pattern` share is `tried_head`; behind it each has a
// call and an answer of its own.
pub fn scan_pattern(file: &[u8], at: usize, channels: Channels) -> Step<usize>
    requires { at ≤ length file.now }
    ensures { result ≡ place_step at (read_pattern channels.count at (drop at file.now)) }
{
    let head = match tried_head(file, at) {
        Ok(head) => head,
        Err(cause) => return Step::Refused(cause.at(at)),
    };
    let place = head.place;
    let next = place + head.size;
    let step = scan_stored(&file[place..next], head.rows, channels.count);
    let Step::Given(_) = step else {
        return Step::Refused(refusal_from(place, step.refusal()));
    };
    Step::Given(next)
}
