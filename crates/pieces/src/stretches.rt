// A sample by its number, its values by its header's kind, and its deltas both ways.
use crate::lent::{front, memory, part};
use crate::patterns::entry;
use crate::write::{put, put_answer, put_lent, put_sum_of};
use adpcm::decode_adpcm;
use asking::{SAMPLE_STRIDE, ask_sample, sample_refusal, sample_stretch};
use heads::sample_head;
use refusal::Refusal;
use std::io;

// Values to lend.
fn values() -> [i16; 1040] {
    [23130; 1040]
}

// Numbers: the sample, the table's numbers that are lent, the file's bytes that are.
pub fn put_ask(
    rt: &impl Print,
    file: &[u8],
    numbers: [usize; 5],
    samples: &[u32],
) -> io::Result<()> {
    let [wanted, lent, bytes, ..] = numbers;
    let table = part(samples, 0, lent);
    let cut = part(file, 0, bytes);
    put_answer(rt, ask_sample(cut, table, wanted))?;
    put(rt, sample_refusal(cut, table, wanted) as usize)?;
    let stretch = sample_stretch(cut, table, wanted);
    put(rt, stretch.len())?;
    put_sum_of(rt, stretch)
}

// A sample's data by what its header says: ADPCM, or deltas of the row's width.
fn decode_by(head: &[u8], width: usize, data: &[u8], values: &mut [i16]) -> Result<usize, Refusal> {
    let sample = sample_head(head, 0, head.len());
    if sample.is_adpcm() {
        return decode_adpcm(sample.length, data, values);
    }
    samples::decode(width, data, values)
}

// Numbers: the sample, room for values, how many bytes of its data are left out, and H. The header stands where the row says, as far as its
// H bytes reach.
pub fn put_values(
    rt: &impl Print,
    file: &[u8],
    numbers: [usize; 5],
    samples: &[u32],
) -> io::Result<()> {
    let [wanted, room, left_out, head_size, _] = numbers;
    let stretch = sample_stretch(file, samples, wanted);
    let data = part(stretch, 0, stretch.len().saturating_sub(left_out));
    let row = SAMPLE_STRIDE * wanted.min(64);
    let head = part(file, entry(samples, row), head_size.min(40));
    let mut values = values();
    // by place: the row may lie past what is lent
    let width = entry(samples, row + 3);
    put_answer(rt, decode_by(head, width, data, front(&mut values, room)))?;
    put_sum_of(rt, &values)
}

// Numbers: the sample, the width to decode at, room for values, the width to code at what came out, room for bytes.
pub fn put_deltas(
    rt: &impl Print,
    file: &[u8],
    numbers: [usize; 5],
    samples: &[u32],
) -> io::Result<()> {
    let [wanted, width, values_room, code_width, room] = numbers;
    let stretch = sample_stretch(file, samples, wanted);
    let mut values = values();
    let decoded = samples::decode(width, stretch, front(&mut values, values_room));
    put_answer(rt, decoded)?;
    put_sum_of(rt, &values)?;
    let mut lent = memory();
    let coded = samples::code(
        code_width,
        part(&values, 0, decoded.unwrap_or(0)),
        front(&mut lent, room),
    );
    put_answer(rt, coded)?;
    put_lent(rt, &lent, room)
}
