// The form in which an instrument is written: I, H and how many bytes it takes. In a stripped module they are the smallest that read the same:
// from the end of the fields back to the last byte that is not 0.
#![tactic(auto)]

ghost use Rattle.std.specs.Prelude.{◌≡◌, ◌+◌, ◌-◌, ◌*◌, ◌≤◌, length, take, drop};
ghost use Rattle.xm.specs.Number.{part};
ghost use Rattle.xm.specs.ModuleKind.{stripped, padded, trimmed};
ghost use Rattle.xm.specs.Got.{Told};
ghost use Rattle.xm.specs.Header.{kind_at};
ghost use Rattle.xm.specs.Sample.{least_head, smallest_head};
ghost use Rattle.xm.specs.Instrument.{least_instrument, least_stripped, samples_most, read_instrument, instrument_view};
ghost use Rattle.xm.specs.Module.{file_most};
ghost use Rattle.heads.specs.Sample.{heads_from};
ghost use Rattle.steps.specs.Kind.{kind_of};
ghost use Rattle.steps.specs.Step.{InstrumentIs};
ghost use Rattle.forms.specs.Form.{FormIs, normal_form, written_fields};

use ahead::eight_at;
use steps::instrument::InstrumentPart;
use steps::kind::ModuleKind;

#[derive(Clone, Copy, Debug, PartialEq, Eq)]
pub struct Form {
    pub size: usize,
    pub head_size: usize,
    pub length: usize,
}

// How many bytes are left without whole eights of zeros at their end, as one number each: most of what is cut off is zeros.
fn kept_by_eights(bytes: &[u8]) -> usize
    ensures upper_bound { result ≤ length bytes.now }
    ensures bytes_len { length (trimmed (take result bytes.now)) ≡ length (trimmed bytes.now) }
{
    let mut left = bytes.len();
    while 8 <= left {
        let last = left - 8;
        if eight_at(bytes, last) != 0 {
            return left;
        }
        left = last;
    }
    left
}

// How many of them are left without any.
fn kept(bytes: &[u8]) -> usize
    ensures { result ≡ length (trimmed bytes.now) }
{
    let left = kept_by_eights(bytes);
    for last in (0..left).rev() {
        if bytes[last] != 0 {
            return last + 1;
        }
    }
    0
}

// The same of a structure of `size` bytes, of those from an offset on up to another.
// Its place is one clause: in a struct every other clause would read through it.
fn kept_in(file: &[u8], at: usize, size: usize, from: usize, to: usize) -> usize
    requires size_in_bounds { at + size ≤ length file.now }
    requires from_le_to { from ≤ to }
    ensures value { result ≡ length (trimmed (part from (to - from) (take size (drop at file.now)))) }
    ensures upper_bound { result ≤ to - from }
{
    if size <= from {
        return 0;
    }
    kept(&file[at + from..at + size.min(to)])
}

// The smallest H of `count` headers, each of `size` bytes: of one after the other only what lies beyond the most so far is looked at.
// Its place is one clause: in a struct every other clause would read through it.
fn smallest_head(file: &[u8], heads: usize, size: usize, count: usize) -> usize
    requires { heads + count * size ≤ length file.now }
    ensures value { result ≡ smallest_head (heads_from count size (drop heads file.now)) }
    ensures upper_bound { result ≤ least_head }
{
    let mut head = heads;
    let mut most: usize = 0;
    for _ in 0..count {
        most += kept_in(file, head, size, most, 40);
        head += size;
    }
    most
}

// The smallest I of an instrument of `size` bytes that is written with this H: 33 and the bytes behind count only if there are samples.
// Its place is one clause: in a struct every other clause would read through it.
fn smallest_size(file: &[u8], at: usize, size: usize, samples: usize, head_size: usize) -> usize
    requires size_in_bounds { at + size ≤ length file.now }
    requires samples_le_samples_most { samples ≤ samples_most }
    requires head_size_le_least_head { head_size ≤ least_head }
    requires head_size_value { samples ≡ 0 → head_size ≡ 0 }
    ensures value { result ≡ least_stripped + length (trimmed (written_fields (padded 241 (take size (drop at file.now))) samples head_size)) }
    ensures upper_bound { result ≤ 241 }
{
    if samples == 0 {
        return 4 + kept_in(file, at, size, 4, 27);
    }
    let voice = kept_in(file, at, size, 33, 241);
    if 0 < voice {
        return 33 + voice;
    }
    if 0 < head_size {
        return 30;
    }
    28
}

// I of a normal instrument.
pub fn least_size(samples: usize) -> usize
    ensures { result ≡ least_instrument samples }
{
    if samples == 0 { 29 } else { 263 }
}

// The form of an instrument that was read at a place, in a normal module. Its data are written as they stand.
pub fn normal_form(at: usize, part: InstrumentPart) -> Form
    requires samples_le_samples_most { part.samples ≤ samples_most }
    requires head_size_bound { at + part.size + part.samples * part.head_size ≤ part.next }
    requires next_le_file_most { part.next ≤ file_most }
    ensures { result ≡ normal_form at part }
{
    let count = part.samples;
    let data = part.next - (at + part.size + count * part.head_size);
    let size = least_size(count);
    Form {
        size,
        head_size: 40,
        length: size + 40 * count + data,
    }
}

// The same in a stripped one, where I and H are measured and not the least: both in one function would ask of a normal one what only this
// one needs.
pub fn stripped_form(file: &[u8], at: usize, part: InstrumentPart) -> Form
    requires instrument_is { InstrumentIs file.now at part }
    requires file_len_bound { length file.now ≤ file_most }
    ensures { Told (λ i. FormIs stripped at part.next (instrument_view i) result) (read_instrument (kind_at file.now) at (drop at file.now)) }
{
    let count = part.samples;
    let heads = at + part.size;
    let data = part.next - (heads + count * part.head_size);
    let head_size = smallest_head(file, heads, part.head_size, count);
    let size = smallest_size(file, at, part.size, count, head_size);
    Form {
        size,
        head_size,
        length: size + count * head_size + data,
    }
}

// In either kind. What part it is of is one clause of each form: a struct of file, place and part would ask it of a normal one too.
pub fn form_of(file: &[u8], at: usize, part: InstrumentPart, kind: ModuleKind) -> Form
    requires instrument_is { InstrumentIs file.now at part }
    requires file_len_bound { length file.now ≤ file_most }
    ensures { Told (λ i. FormIs (kind_of kind) at part.next (instrument_view i) result) (read_instrument (kind_at file.now) at (drop at file.now)) }
{
    match kind {
        ModuleKind::Normal => normal_form(at, part),
        ModuleKind::Stripped => stripped_form(file, at, part),
    }
}
