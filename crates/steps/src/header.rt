// The header step.
ghost use Rattle.std.specs.Prelude.{◌≡◌, ◌≤◌, length};
ghost use Rattle.xm.specs.Header.{orders_from, kind_at, read_header, count_tests, header_tests};
ghost use Rattle.refusal.specs.Refusal.{step_by};
ghost use Rattle.refusal.specs.Test.{tested};
ghost use Rattle.steps.specs.Kind.{kind_of};
ghost use Rattle.steps.specs.Step.{header_part, header_given};

use crate::kind::ModuleKind;
use refusal::{Cause, Step, ensure};
use slices::read::read;

// What the walk needs of a header: its counts, and where the first pattern starts.
#[derive(Clone, Copy, Debug, PartialEq, Eq)]
pub struct HeaderPart {
    pub channels: usize,
    pub patterns: usize,
    pub instruments: usize,
    pub start: usize,
}

// The counts and the start, where the first 80 bytes are present.
// Its place is one clause: in a struct every other clause would read through it.
pub fn header_part(file: &[u8]) -> HeaderPart
    requires { orders_from ≤ length file.now }
    ensures { result ≡ header_part file.now }
{
    HeaderPart {
        channels: read::<u16>(file, 0, 68),
        patterns: read::<u16>(file, 0, 70),
        instruments: read::<u16>(file, 0, 72),
        start: read::<u32>(file, 0, 60) + 60,
    }
}

// The counts, each by its range.
fn counts_pass(
    song_length: usize,
    patterns: usize,
    channels: usize,
    instruments: usize,
) -> Result<(), Cause>
    ensures { result ≡ tested (count_tests song_length patterns channels instruments 0) }
{
    ensure((1..=256).contains(&song_length), Cause::Count)?;
    ensure((1..=256).contains(&patterns), Cause::Count)?;
    ensure((1..=64).contains(&channels), Cause::Count)?;
    ensure(instruments <= 128, Cause::Count)
}

// Its tests in their order: the first 80 bytes present; 3; 4; 5; header size + 60 within the file.
fn header_refusal(file: &[u8], kind: ModuleKind) -> Result<(), Cause>
    ensures { result ≡ tested (header_tests (kind_of kind) 0 file.now) }
{
    ensure(80 <= file.len(), Cause::PastEnd)?;
    ensure(read::<u8>(file, 0, 37) == kind.mark(), Cause::NoKind)?;
    ensure(read::<u16>(file, 0, 58) == kind.version(), Cause::NoKind)?;
    let part = header_part(file);
    let song_length = read::<u16>(file, 0, 64);
    ensure(
        60 + kind.least_header(song_length) <= part.start,
        Cause::HeaderSize,
    )?;
    counts_pass(song_length, part.patterns, part.channels, part.instruments)?;
    ensure(part.start <= file.len(), Cause::PastEnd)
}

// The header of a file of either kind.
pub fn read_header(file: &[u8]) -> Step<HeaderPart>
    ensures { result ≡ step_by header_given (read_header (kind_at file.now) 0 file.now) }
{
    if let Err(cause) = header_refusal(file, ModuleKind::of(file)) {
        return Step::Refused(cause.at(0));
    }
    Step::Given(header_part(file))
}
