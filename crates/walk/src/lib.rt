// The walk over a file: header, patterns and instruments, one step after the other; and the check.
#![tactic(auto)]

ghost use Rattle.std.specs.Prelude.{◌≡◌, ℕ, ◌*◌, ◌≤◌, List, length, drop, replicate};
ghost use Rattle.xm.specs.Got.{got};
ghost use Rattle.xm.specs.Format.{each};
ghost use Rattle.xm.specs.Answer.{answered};
ghost use Rattle.xm.specs.Header.{kind_at, header_format};
ghost use Rattle.xm.specs.PatternInFile.{PatternFound, pattern_format};
ghost use Rattle.xm.specs.Instrument.{instrument_format};
ghost use Rattle.xm.specs.Module.{Found, file_most, read_whole, read_file};
ghost use Rattle.xm.specs.Table.{checking};
ghost use Rattle.refusal.specs.Refusal.{outcome, step_by, place_step};
ghost use Rattle.mark.specs.Mark.{Marks};
ghost use Rattle.steps.specs.Kind.{kind_of};
ghost use Rattle.steps.specs.Step.{header_given};
ghost use Rattle.walk.specs.File.{run_given, run_pressed, count_given, pressed_as, code_module};

use forms::form_of;
use mark::{mark_of, put_mark};
use refusal::{Cause, Refusal, Step};
use slices::read::read;
use steps::header::{HeaderPart, read_header};
use steps::instrument::read_instrument;
use steps::kind::ModuleKind;
use steps::pattern::{Channels, read_pattern, scan_pattern};

// "2 | file over 16,777,216 bytes"
pub const FILE_MOST: usize = 16777216;

// A run of structures, one after the other: where they end, and the bytes of their pressed forms.
#[derive(Clone, Copy, Debug, PartialEq, Eq)]
struct Run {
    next: usize,
    pressed: usize,
}

// A run of instruments: where they end, and how many samples they have.
#[derive(Clone, Copy, Debug, PartialEq, Eq)]
struct Count {
    next: usize,
    samples: usize,
}

// What a check reports: the end of the last structure, and the counts.
#[derive(Clone, Copy, Debug, PartialEq, Eq)]
pub struct Module {
    pub end: usize,
    pub channels: usize,
    pub patterns: usize,
    pub instruments: usize,
    pub samples: usize,
}

// `count` patterns, from a place on, with a mark for each. The place is in the file by one clause, as in the steps.
fn read_patterns(
    file: &[u8],
    at: usize,
    channels: Channels,
    count: usize,
    marks: &mut [u64; 8],
) -> Step<Run>
    requires at_in_bounds { at ≤ length file.now }
    requires count_bound { count ≤ 256 }
    ensures answer { result ≡ step_by (run_given pattern_format at) ((each pattern_format).read (replicate count channels.count) at (drop at file.now)) }
    ensures marked { (is : List PatternFound) (used : ℕ) → (each pattern_format).read (replicate count channels.count) at (drop at file.now) ≡ got is used → Marks file.now 0 is marks.new }
{
    let mut place = at;
    let mut pressed: usize = 0;
    for done in 0..count {
        let step = read_pattern(file, place, channels);
        let Step::Given(part) = step else {
            return Step::Refused(step.refusal());
        };
        put_mark(marks, done, mark_of(part.shortest, part.same).number());
        place = part.next;
        pressed += 9 + part.shortest;
    }
    Step::Given(Run {
        next: place,
        pressed,
    })
}

// `count` patterns, from a place on, that are only tried: no one loop with the one above, which marks and measures, since a closure for
// that and its contract would be longer.
fn scan_patterns(file: &[u8], at: usize, channels: Channels, count: usize) -> Step<usize>
    requires { at ≤ length file.now }
    ensures { result ≡ place_step at ((each pattern_format).read (replicate count channels.count) at (drop at file.now)) }
{
    let mut place = at;
    for _ in 0..count {
        let step = scan_pattern(file, place, channels);
        let Step::Given(next) = step else {
            return step;
        };
        place = next;
    }
    Step::Given(place)
}

// `count` instruments, from a place on, as they are written in a module of a kind.
// The file's length bounds the sums: in a struct every clause would read the file through it.
fn read_instruments(file: &[u8], at: usize, kind: ModuleKind, count: usize) -> Step<Run>
    requires at_in_bounds { at ≤ length file.now }
    requires file_len_bound { length file.now ≤ file_most }
    requires count_bound { count ≤ 128 }
    ensures answer { result ≡ step_by (run_given (instrument_format (kind_of kind)) at) ((each (instrument_format (kind_at file.now))).read (replicate count tt) at (drop at file.now)) }
    ensures small { run_pressed result ≤ 2 * file_most }
{
    let mut place = at;
    let mut pressed: usize = 0;
    for _ in 0..count {
        let step = read_instrument(file, place);
        let Step::Given(part) = step else {
            return Step::Refused(step.refusal());
        };
        pressed += form_of(file, place, part, kind).length;
        place = part.next;
    }
    Step::Given(Run {
        next: place,
        pressed,
    })
}

// `count` instruments, from a place on, that are only tried, with their samples: no one loop with the one above either, since its sums have
// bounds of their own.
fn count_instruments(file: &[u8], at: usize, count: usize) -> Step<Count>
    requires at_in_bounds { at ≤ length file.now }
    requires count_bound { count ≤ 128 }
    ensures { result ≡ step_by (count_given at) ((each (instrument_format (kind_at file.now))).read (replicate count tt) at (drop at file.now)) }
{
    let mut place = at;
    let mut samples: usize = 0;
    for _ in 0..count {
        let step = read_instrument(file, place);
        let Step::Given(part) = step else {
            return Step::Refused(step.refusal());
        };
        place = part.next;
        samples += part.samples;
    }
    Step::Given(Count {
        next: place,
        samples,
    })
}

// The size of the file, and then its header.
fn begin(file: &[u8]) -> Step<HeaderPart>
    ensures { result ≡ step_by header_given (read_whole (header_format (kind_at file.now)) file.now) }
{
    if FILE_MOST < file.len() {
        return Step::Refused(Cause::FileTooLong.at(0));
    }
    read_header(file)
}

// The whole file, in one pass: its first refusal, or the length of its shortest form as a module of a kind, and then with a mark for each
// pattern.
// The marks are numbers of two bits, 64 bytes of stack, as the header for C states it.
pub fn walk(file: &[u8], kind: ModuleKind, marks: &mut [u64; 8]) -> Result<usize, Refusal>
    ensures answer { result ≡ outcome length (answered (pressed_as (kind_of kind)) (read_file file.now)) }
    ensures marked { (found : Found) (end : ℕ) → read_file file.now ≡ got found end → Marks file.now 0 found.1.0 marks.new }
{
    let step = begin(file);
    let Step::Given(header) = step else {
        return Err(step.refusal());
    };
    let channels = Channels {
        count: header.channels,
    };
    let first = read_patterns(file, header.start, channels, header.patterns, marks);
    let Step::Given(patterns) = first else {
        return Err(first.refusal());
    };
    let last = read_instruments(file, patterns.next, kind, header.instruments);
    let Step::Given(instruments) = last else {
        return Err(last.refusal());
    };
    let size = kind.least_header(read::<u16>(file, 0, 64)) + 60;
    Ok(size + patterns.pressed + instruments.pressed)
}

// The check of a file, in one pass: its first refusal, or its end and counts. What only the press wants is not measured.
pub fn check(file: &[u8]) -> Result<Module, Refusal>
    ensures { result ≡ outcome code_module (checking file.now) }
{
    let step = begin(file);
    let Step::Given(head) = step else {
        return Err(step.refusal());
    };
    let channels = Channels {
        count: head.channels,
    };
    let first = scan_patterns(file, head.start, channels, head.patterns);
    let Step::Given(next) = first else {
        return Err(first.refusal());
    };
    let last = count_instruments(file, next, head.instruments);
    let Step::Given(run) = last else {
        return Err(last.refusal());
    };
    Ok(Module {
        end: run.next,
        channels: head.channels,
        patterns: head.patterns,
        instruments: head.instruments,
        samples: run.samples,
    })
}
