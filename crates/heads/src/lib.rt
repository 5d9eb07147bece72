// Sample headers and sample data. Data are never read, only stepped over.
#![tactic(auto)]

ghost use Rattle.std.specs.Prelude.{◌≡◌, cond, ◌+◌, ◌*◌, ◌%◌, ◌≤◌, ◌<◌, eqb, length, take, drop, replicate};
ghost use Rattle.xm.specs.ModuleKind.{padded};
ghost use Rattle.xm.specs.Format.{each};
ghost use Rattle.xm.specs.Sample.{head_bytes, adpcm, wide_by, loops_by, data_size_by, read_head, read_data, head_format, data_format, samples_format};
ghost use Rattle.refusal.specs.Refusal.{place_step};
ghost use Rattle.refusal.specs.Test.{tested};
ghost use Rattle.heads.specs.Sample.{fields_end, HeadAt, head_tests_of, heads_from};

use adpcm::adpcm_size;
use refusal::{Cause, Step, ensure};
use slices::read::{read, signed_byte};
use slices::write::copy;

// "Kind AD"
const ADPCM: usize = 0xAD;

// The fields of a sample header that the walk and the tables use.
#[derive(Clone, Copy, Debug, PartialEq, Eq)]
pub struct SampleHead {
    pub length: usize,
    pub loop_start: usize,
    pub loop_length: usize,
    pub finetune: i8,
    pub form: usize,
    pub relative_note: i8,
    pub kind: usize,
}

impl SampleHead {
    // Whether its values are 16-bit.
    pub fn is_wide(self) -> bool
        ensures { result ≡ wide_by self.form }
    {
        self.form / 16 % 2 == 1
    }

    // How it loops: 0 for not at all. A number, since both bits at once, which 13 refuses, is one as well.
    pub fn loop_bits(self) -> usize
        ensures { result ≡ self.form % 4 }
    {
        self.form % 4
    }

    // Whether it loops: its loop length is above 0, and its loop bits are not 0.
    pub fn loops(self) -> bool
        ensures { result ≡ loops_by self.form self.loop_length }
    {
        0 < self.loop_length && self.loop_bits() != 0
    }

    // Whether it is of kind AD.
    pub fn is_adpcm(self) -> bool
        ensures { result ≡ eqb self.kind adpcm }
    {
        self.kind == ADPCM
    }

    // The bytes that its data take: of kind AD not its length.
    pub fn data_size(self) -> usize
        ensures { result ≡ data_size_by self.kind self.length }
    {
        if self.is_adpcm() {
            return adpcm_size(self.length);
        }
        self.length
    }
}

// The fields of a header that stands at a place of some bytes, as far as its last field.
fn fields_at(bytes: &[u8], at: usize) -> SampleHead
    requires { at + fields_end ≤ length bytes.now }
    ensures { HeadAt (drop at bytes.now) result }
{
    SampleHead {
        length: read::<u32>(bytes, at, 0),
        loop_start: read::<u32>(bytes, at, 4),
        loop_length: read::<u32>(bytes, at, 8),
        finetune: signed_byte(bytes[at + 13]),
        form: read::<u8>(bytes, at, 14),
        relative_note: signed_byte(bytes[at + 16]),
        kind: read::<u8>(bytes, at, 17),
    }
}

// The fields of a header that ends before its last one, as a stripped module may have it: what is cut off is 0.
fn cut_fields(file: &[u8], at: usize, size: usize) -> SampleHead
    requires size_in_bounds { at + size ≤ length file.now }
    requires size_le_fields_end { size ≤ fields_end }
    ensures { HeadAt (padded fields_end (take size (drop at file.now))) result }
{
    let mut bytes: [u8; 18] = [0; 18];
    copy(&file[at..at + size], &mut bytes);
    fields_at(&bytes, 0)
}

// The fields of a header of any size; of one that is long enough they are read where they stand, with no copy.
pub fn sample_head(file: &[u8], at: usize, size: usize) -> SampleHead
    requires { at + size ≤ length file.now }
    ensures { HeadAt (head_bytes size (drop at file.now)) result }
{
    if 18 <= size {
        return fields_at(file, at);
    }
    cut_fields(file, at, size)
}

// A number where it counts, and else 0: the choice needs no jump.
fn number_if(counts: bool, number: usize) -> usize
    ensures { result ≡ cond counts number 0 }
{
    if counts { number } else { 0 }
}

// A header's tests: 12, then the causes of 13. Of a sample that does not loop both numbers of its loop count as 0, so that its tests pass:
// no jump hangs on what kind of sample it is, since samples of all kinds stand in one file.
fn head_refusal(head: SampleHead) -> Result<(), Cause>
    requires loop_start_bound { head.loop_start < 4294967296 }
    requires loop_length_bound { head.loop_length < 4294967296 }
    ensures { result ≡ tested (head_tests_of 0 head) }
{
    let wide = head.is_wide();
    ensure(!wide || !head.is_adpcm(), Cause::WideAdpcm)?;
    ensure(head.loop_bits() != 3, Cause::SampleHeader)?;
    let looped = number_if(head.loop_bits() != 0, head.loop_length);
    let start = number_if(looped != 0, head.loop_start);
    let odd = (head.length % 2 == 1) | (start % 2 == 1) | (looped % 2 == 1);
    ensure(!(wide & odd), Cause::SampleHeader)?;
    ensure(start + looped <= head.length, Cause::SampleHeader)
}

// A header's first refusal, or where the next one stands. That the headers lie in the file is one clause of each step: as a field of a struct
// of file, place and size every other clause would read through it.
fn read_head(file: &[u8], at: usize, size: usize) -> Step<usize>
    requires { at + size ≤ length file.now }
    ensures { result ≡ place_step at (read_head size at (drop at file.now)) }
{
    let head = sample_head(file, at, size);
    if let Err(cause) = head_refusal(head) {
        return Step::Refused(cause.at(at));
    }
    Step::Given(at + size)
}

// The data of the sample whose header stands at `head`.
fn read_data(file: &[u8], head: usize, size: usize, at: usize) -> Step<usize>
    requires size_in_bounds { head + size ≤ length file.now }
    requires at_in_bounds { at ≤ length file.now }
    ensures { result ≡ place_step at (read_data (head_bytes size (drop head file.now)) at (drop at file.now)) }
{
    let sample = sample_head(file, head, size);
    let bytes = sample.data_size();
    if file.len() - at < bytes {
        return Step::Refused(Cause::PastEnd.at(at));
    }
    Step::Given(at + bytes)
}

// All `count` headers, each of `size` bytes.
fn read_heads(file: &[u8], at: usize, size: usize, count: usize) -> Step<usize>
    requires { at + count * size ≤ length file.now }
    ensures { result ≡ place_step at ((each head_format).read (replicate count size) at (drop at file.now)) }
{
    let mut place = at;
    for _ in 0..count {
        let step = read_head(file, place, size);
        let Step::Given(next) = step else {
            return step;
        };
        place = next;
    }
    Step::Given(place)
}

// The data of the `count` samples whose headers stand from `heads` on.
fn read_all_data(file: &[u8], heads: usize, size: usize, count: usize, at: usize) -> Step<usize>
    requires size_in_bounds { heads + count * size ≤ length file.now }
    requires at_in_bounds { at ≤ length file.now }
    ensures { result ≡ place_step at ((each data_format).read (heads_from count size (drop heads file.now)) at (drop at file.now)) }
{
    let mut place = at;
    for number in 0..count {
        let step = read_data(file, heads + number * size, size, place);
        let Step::Given(next) = step else {
            return step;
        };
        place = next;
    }
    Step::Given(place)
}

// All headers, and then the data of each.
pub fn read_samples(file: &[u8], at: usize, size: usize, count: usize) -> Step<usize>
    requires { at + count * size ≤ length file.now }
    ensures { result ≡ place_step at (samples_format.read (replicate count size) at (drop at file.now)) }
{
    let step = read_heads(file, at, size, count);
    let Step::Given(body) = step else {
        return step;
    };
    read_all_data(file, at, size, count, body)
}
