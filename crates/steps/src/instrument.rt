// The instrument step: the tests in front, and behind its fields the samples.
ghost use Rattle.std.specs.Prelude.{◌≡◌, ◌≤◌, length, drop};
ghost use Rattle.xm.specs.ModuleKind.{normal, stripped};
ghost use Rattle.xm.specs.Got.{AllHold};
ghost use Rattle.xm.specs.Header.{kind_at};
ghost use Rattle.xm.specs.Instrument.{instrument_tests, read_instrument};
ghost use Rattle.refusal.specs.Refusal.{step_by};
ghost use Rattle.refusal.specs.Test.{tested};
ghost use Rattle.steps.specs.Kind.{kind_of};
ghost use Rattle.steps.specs.Step.{instrument_head, instrument_given};

use crate::kind::ModuleKind;
use heads::read_samples;
use refusal::{Cause, Step, ensure};
use slices::read::{read, read_in};

// An instrument's I, k and H (0 if there are no samples), and where the next one starts.
#[derive(Clone, Copy, Debug, PartialEq, Eq)]
pub struct InstrumentPart {
    pub size: usize,
    pub samples: usize,
    pub head_size: usize,
    pub next: usize,
}

// What its fields tell: k, where its sample headers start, and H (0 if there are none).
#[derive(Clone, Copy, Debug, PartialEq, Eq)]
pub struct InstrumentHead {
    pub samples: usize,
    pub heads: usize,
    pub head_size: usize,
}

// That a place is in the file is one clause of each step: as a field of a struct every other clause would read through it.
//
// The tests in front: 29 bytes present; 10; I bytes present; and if k > 0: 11; all k headers present.
fn normal_refusal(file: &[u8], at: usize) -> Result<(), Cause>
    requires { at ≤ length file.now }
    ensures { result ≡ tested (instrument_tests normal at (drop at file.now)) }
{
    let left = file.len() - at;
    ensure(29 <= left, Cause::PastEnd)?;
    let size = read::<u32>(file, at, 0);
    ensure(29 <= size, Cause::InstrumentHeader)?;
    let count = read::<u16>(file, at, 27);
    ensure(count <= 16, Cause::InstrumentHeader)?;
    ensure(count == 0 || 263 <= size, Cause::InstrumentHeader)?;
    ensure(size <= left, Cause::PastEnd)?;
    if count == 0 {
        return Ok(());
    }
    let head_size = read::<u32>(file, at, 29);
    ensure(40 <= head_size, Cause::SampleHeaderSize)?;
    ensure(size + count * head_size <= left, Cause::PastEnd)
}

// The same of a stripped one, by other tests in another order, since its own I may cut off k and H: 4 bytes present; I below 4 (10); I bytes present; k above 16 (10);
// all k headers present.
fn stripped_refusal(file: &[u8], at: usize) -> Result<(), Cause>
    requires { at ≤ length file.now }
    ensures { result ≡ tested (instrument_tests stripped at (drop at file.now)) }
{
    let left = file.len() - at;
    ensure(4 <= left, Cause::PastEnd)?;
    let size = read::<u32>(file, at, 0);
    ensure(4 <= size, Cause::InstrumentHeader)?;
    ensure(size <= left, Cause::PastEnd)?;
    let count = read_in::<u16>(file, at, size, 27);
    ensure(count <= 16, Cause::InstrumentHeader)?;
    if count == 0 {
        return Ok(());
    }
    let head_size = read_in::<u32>(file, at, size, 29);
    ensure(size + count * head_size <= left, Cause::PastEnd)
}

// Of either kind.
fn instrument_refusal(file: &[u8], at: usize, kind: ModuleKind) -> Result<(), Cause>
    requires { at ≤ length file.now }
    ensures { result ≡ tested (instrument_tests (kind_of kind) at (drop at file.now)) }
{
    match kind {
        ModuleKind::Normal => normal_refusal(file, at),
        ModuleKind::Stripped => stripped_refusal(file, at),
    }
}

// The fields of an instrument that passed. A normal one's I cuts off none of them, so that it reads as a stripped one does.
pub fn instrument_head(file: &[u8], at: usize) -> InstrumentHead
    requires { AllHold (instrument_tests (kind_at file.now) at (drop at file.now)) }
    ensures { result ≡ instrument_head (kind_at file.now) at (drop at file.now) }
{
    let size = read::<u32>(file, at, 0);
    let samples = read_in::<u16>(file, at, size, 27);
    let head_size = if samples == 0 {
        0
    } else {
        read_in::<u32>(file, at, size, 29)
    };
    InstrumentHead {
        samples,
        heads: at + size,
        head_size,
    }
}

// An instrument with its samples: its first refusal, or what the walk needs of it.
pub fn read_instrument(file: &[u8], at: usize) -> Step<InstrumentPart>
    requires { at ≤ length file.now }
    ensures { result ≡ step_by (instrument_given at) (read_instrument (kind_at file.now) at (drop at file.now)) }
{
    if let Err(cause) = instrument_refusal(file, at, ModuleKind::of(file)) {
        return Step::Refused(cause.at(at));
    }
    let head = instrument_head(file, at);
    let step = read_samples(file, head.heads, head.head_size, head.samples);
    let Step::Given(next) = step else {
        return Step::Refused(step.refusal());
    };
    Step::Given(InstrumentPart {
        size: head.heads - at,
        samples: head.samples,
        head_size: head.head_size,
        next,
    })
}
