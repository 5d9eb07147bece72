// The row of a sample, found from the file alone.
ghost use Rattle.std.specs.Prelude.{◌≡◌, ◌+◌, ◌*◌, ◌<◌, ◌≤◌, ◌^◌, cond, length, get_or, drop};
ghost use Rattle.xm.specs.Got.{list_in};
ghost use Rattle.xm.specs.Sample.{head_bytes, in_samples};
ghost use Rattle.xm.specs.Module.{file_most, read_file};
ghost use Rattle.xm.specs.Lay.{lay};
ghost use Rattle.xm.specs.Table.{sample_row_at, sample_rows, sample_stride, tune_stride};
ghost use Rattle.xm.specs.Asking.{no_row};
ghost use Rattle.rows.specs.Place.{code_row, code_row_numbers, tunes_of};
ghost use Rattle.rows.specs.Sought.{sought_from, Seeks};

use crate::accepted::Accepted;
use crate::place::first_instrument;
use asking::SAMPLE_STRIDE;
use heads::sample_head;
use steps::instrument::instrument_head;

// Tunes to a row.
pub const TUNE_STRIDE: usize = 2;

// Header place, data place, length in bytes, width (8 or 16); loop kind (0 none, 1 forward, 2 both ways), loop start and loop length in
// samples; finetune, relative note. Width and loop kind are numbers, since any rows may be lent.
#[derive(Clone, Copy, Debug, PartialEq, Eq)]
pub struct SampleRow {
    pub header_place: u32,
    pub data_place: u32,
    pub length: u32,
    pub width: u32,
    pub loop_kind: u32,
    pub loop_start: u32,
    pub loop_length: u32,
    pub finetune: i8,
    pub relative_note: i8,
}

// How many bits a value takes.
fn width_of(wide: bool) -> u32
    ensures { result ≡ cond wide 16 8 }
{
    if wide { 16 } else { 8 }
}

// So many bytes in samples: of 16 bits each takes two.
fn in_samples(wide: bool, bytes: usize) -> usize
    ensures { result ≡ in_samples (cond wide 16 8) bytes }
{
    if wide { bytes / 2 } else { bytes }
}

// A number of a sample's loop: 0 if it doesn't loop.
// A plain test, and no kind.
fn loop_number(looping: bool, number: u32) -> u32
    ensures { result ≡ cond looping number 0 }
{
    if looping { number } else { 0 }
}

// The row of a sample, by its header and where its data begin.
// The file's length bounds the sums: in a struct every clause would read the file through it.
fn sample_row(file: &[u8], head: usize, size: usize, data_place: usize) -> SampleRow
    requires file_len_bound { length file.now ≤ file_most }
    requires size_in_bounds { head + size ≤ length file.now }
    requires data_place_in_bounds { data_place ≤ length file.now }
    ensures { result ≡ code_row (sample_row_at head data_place (head_bytes size (drop head file.now))) }
{
    let sample = sample_head(file, head, size);
    let wide = sample.is_wide();
    let looping = sample.loops();
    SampleRow {
        header_place: head as u32,
        data_place: data_place as u32,
        length: sample.data_size() as u32,
        width: width_of(wide),
        loop_kind: loop_number(looping, sample.loop_bits() as u32),
        loop_start: loop_number(looping, in_samples(wide, sample.loop_start) as u32),
        loop_length: loop_number(looping, in_samples(wide, sample.loop_length) as u32),
        finetune: sample.finetune,
        relative_note: sample.relative_note,
    }
}

// A sample sought: its number, how many samples its instrument has from it on, where its header stands, H, and where its data begin.
// With none left, the next instrument stands there.
#[derive(Clone, Copy, Debug, PartialEq, Eq)]
pub struct Sought {
    pub number: usize,
    pub left: usize,
    pub head: usize,
    pub head_size: usize,
    pub data_place: usize,
}

// The row of the sample sought, and from where the next one is sought.
#[derive(Clone, Copy, Debug, PartialEq, Eq)]
pub struct RowStep {
    pub row: SampleRow,
    pub next: Sought,
}

// Sought from the instrument at a place on.
pub fn sought_from(place: usize) -> Sought
    ensures { result ≡ sought_from place }
{
    Sought {
        number: 0,
        left: 0,
        head: 0,
        head_size: 0,
        data_place: place,
    }
}

// Where the first of `count` samples is sought. With none to seek nothing is read, as of a refused file.
pub fn first_sought(file: &[u8], count: usize) -> Sought
    requires { count ≤ length (list_in sample_rows (read_file file.now)) }
    ensures { (result.number ≡ 0) × (0 < count → Seeks file.now result) }
{
    if count == 0 {
        return sought_from(0);
    }
    sought_from(first_instrument(Accepted { file }))
}

// The row of a sample of an accepted file: behind an instrument's last one, only the instruments without any are stepped over.
pub fn row_step(file: &[u8], from: Sought) -> RowStep
    requires { (from.number < length (list_in sample_rows (read_file file.now))) × (from.number + 1 < 2 ^ 64) × Seeks file.now from }
    ensures { (result.row ≡ code_row (get_or (list_in sample_rows (read_file file.now)) from.number no_row))
        × (result.next.number ≡ from.number + 1)
        × Seeks file.now result.next }
{
    let number = from.number;
    let mut left = from.left;
    let mut head = from.head;
    let mut size = from.head_size;
    let mut place = from.data_place;
    while left == 0 {
        let instrument = instrument_head(file, place);
        left = instrument.samples;
        head = instrument.heads;
        size = instrument.head_size;
        place = head + left * size;
    }
    let row = sample_row(file, head, size, place);
    let next = Sought {
        number: number + 1,
        left: left - 1,
        head: head + size,
        head_size: size,
        data_place: place + row.length as usize,
    };
    RowStep { row, next }
}

// Stores the row of a sample: seven numbers to a row, and apart its two tunes, as C lends them. By index: as_chunks_mut does not say what
// the tables end as.
pub fn put_sample(samples: &mut [u32], tunes: &mut [i8], number: usize, row: SampleRow)
    requires sample_stride_in_bounds { sample_stride * number + sample_stride ≤ length samples.old }
    requires tune_stride_in_bounds { tune_stride * number + tune_stride ≤ length tunes.old }
    ensures samples_after { samples.new ≡ lay samples.old (sample_stride * number) (code_row_numbers row) }
    ensures tunes_after { tunes.new ≡ lay tunes.old (tune_stride * number) (tunes_of row) }
{
    let to = SAMPLE_STRIDE * number;
    samples[to] = row.header_place;
    samples[to + 1] = row.data_place;
    samples[to + 2] = row.length;
    samples[to + 3] = row.width;
    samples[to + 4] = row.loop_kind;
    samples[to + 5] = row.loop_start;
    samples[to + 6] = row.loop_length;
    let at = TUNE_STRIDE * number;
    tunes[at] = row.finetune;
    tunes[at + 1] = row.relative_note;
}
