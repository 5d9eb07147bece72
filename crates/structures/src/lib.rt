// One structure after the other: what a reader hands over at a call, and how far it has read then. On a plain slice and numbers, so that the
// small reader itself has only calls and a store. The file is checked once, at the start; a call reads one structure's own fields.
#![tactic(auto)]

ghost use Rattle.std.specs.Prelude.{◌≡◌, cond, ◌+◌, ◌<◌, leb, length, drop};
ghost use Rattle.xm.specs.Header.{kind_at};
ghost use Rattle.xm.specs.PatternInFile.{least_pattern};
ghost use Rattle.xm.specs.Instrument.{read_instrument};
ghost use Rattle.xm.specs.Table.{checking};
ghost use Rattle.xm.specs.Structure.{ends_at, hand_head, hand_pattern, hand_instrument, hand_over, started};
ghost use Rattle.refusal.specs.Refusal.{outcome};
ghost use Rattle.walk.specs.File.{code_module};
ghost use Rattle.structures.specs.Handing.{ahead_of, ahead_in, handed_next, handing};

use refusal::{Refusal, Step};
use steps::header::header_part;
use steps::instrument::read_instrument;
use steps::pattern::pattern_head;
use walk::{FILE_MOST, Module, check};

#[derive(Clone, Copy, Debug, PartialEq, Eq)]
pub enum StructureKind {
    Pattern,
    Instrument,
    SampleHeader,
}

#[derive(Clone, Copy, Debug, PartialEq, Eq)]
pub struct Structure {
    pub kind: StructureKind,
    pub place: usize,
}

// So many patterns and then instruments are left, from a place on; and before them, of the instrument that was handed over last, so many
// sample headers, of a size, from a place on.
#[derive(Clone, Copy, Debug, PartialEq, Eq)]
pub struct Ahead {
    pub patterns: usize,
    pub instruments: usize,
    pub place: usize,
    pub heads: usize,
    pub head: usize,
    pub head_size: usize,
}

// A structure, or none, for the end is reached; and how far has been read then. Of a refused file each is the check's refusal.
#[derive(Clone, Copy, Debug, PartialEq, Eq)]
pub struct Handed {
    pub standing: Result<Option<Structure>, Refusal>,
    pub reached: Result<Ahead, Refusal>,
}

// A sample header of the instrument handed over last, if it lies in a file of so many bytes.
fn hand_head(length: usize, ahead: Ahead) -> Option<(Structure, Ahead)>
    requires { 0 < ahead.heads }
    ensures { result ≡ handed_next (cond (leb (ahead.head + ahead.head_size) length) (hand_head (ahead_in ahead)) (ends_at (ahead_in ahead))) }
{
    let place = ahead.head;
    if length < place || length - place < ahead.head_size {
        return None;
    }
    let next = Ahead {
        heads: ahead.heads - 1,
        head: place + ahead.head_size,
        ..ahead
    };
    let kind = StructureKind::SampleHeader;
    Some((Structure { kind, place }, next))
}

// A pattern: its cells are not read again.
fn hand_pattern(file: &[u8], ahead: Ahead) -> Option<(Structure, Ahead)>
    requires { 0 < ahead.patterns }
    ensures { result ≡ handed_next (cond (leb (ahead.place + least_pattern) (length file.now)) (hand_pattern (drop ahead.place file.now) (ahead_in ahead)) (ends_at (ahead_in ahead))) }
{
    let place = ahead.place;
    if file.len().saturating_sub(place) < 9 {
        return None;
    }
    let pattern = pattern_head(file, place);
    let next = Ahead {
        patterns: ahead.patterns - 1,
        instruments: ahead.instruments,
        place: pattern.place + pattern.size,
        heads: 0,
        head: 0,
        head_size: 0,
    };
    let kind = StructureKind::Pattern;
    Some((Structure { kind, place }, next))
}

// An instrument, by the step that the check makes: its fields, and its sample headers, of which there are at most 16. With H = 0 they stand at
// one place, and are counted.
fn hand_instrument(file: &[u8], ahead: Ahead) -> Option<(Structure, Ahead)>
    requires { 0 < ahead.instruments }
    ensures { result ≡ handed_next (cond (leb ahead.place (length file.now)) (hand_instrument (read_instrument (kind_at file.now) ahead.place (drop ahead.place file.now)) (ahead_in ahead)) (ends_at (ahead_in ahead))) }
{
    let place = ahead.place;
    if file.len() < place {
        return None;
    }
    let Step::Given(part) = read_instrument(file, place) else {
        return None;
    };
    let next = Ahead {
        patterns: ahead.patterns,
        instruments: ahead.instruments - 1,
        place: part.next,
        heads: part.samples,
        head: place + part.size,
        head_size: part.head_size,
    };
    let kind = StructureKind::Instrument;
    Some((Structure { kind, place }, next))
}

// One call, of any such numbers: where they are of no accepted file, what is not there is the end.
#[tactic(auto, unfolding(xm::specs::Structure::hand_over))]
fn hand_over(file: &[u8], ahead: Ahead) -> Option<(Structure, Ahead)>
    ensures { result ≡ handed_next (hand_over file.now (ahead_in ahead)) }
{
    if FILE_MOST < file.len() {
        return None;
    }
    if 0 < ahead.heads {
        return hand_head(file.len(), ahead);
    }
    if 0 < ahead.patterns {
        return hand_pattern(file, ahead);
    }
    if 0 < ahead.instruments {
        return hand_instrument(file, ahead);
    }
    None
}

// Before the first call, by the check's verdict on the file.
pub fn start_checked(file: &[u8], verdict: Result<Module, Refusal>) -> Result<Ahead, Refusal>
    requires { verdict ≡ outcome code_module (checking file.now) }
    ensures { result ≡ outcome ahead_of (started file.now) }
{
    verdict?;
    let counts = header_part(file);
    Ok(Ahead {
        patterns: counts.patterns,
        instruments: counts.instruments,
        place: counts.start,
        heads: 0,
        head: 0,
        head_size: 0,
    })
}

// The same, and the file is checked here, once.
pub fn start(file: &[u8]) -> Result<Ahead, Refusal>
    ensures { result ≡ outcome ahead_of (started file.now) }
{
    start_checked(file, check(file))
}

// A call: the next structure, or none at the end; of a refused file the check's refusal, again and again.
#[tactic(auto, using(crate::proofs::HandingLaws::hand_ends))]
pub fn hand(file: &[u8], reached: Result<Ahead, Refusal>) -> Handed
    ensures { result ≡ handing file.now reached }
{
    match reached {
        Ok(ahead) => match hand_over(file, ahead) {
            Some((structure, next)) => Handed {
                standing: Ok(Some(structure)),
                reached: Ok(next),
            },
            None => Handed {
                standing: Ok(None),
                reached,
            },
        },
        Err(refusal) => Handed {
            standing: Err(refusal),
            reached,
        },
    }
}
