// Calls on the tables that a check has filled, and that check itself.
use crate::files::put_verdict;
use crate::lent::front;
use crate::patterns::put_unpack;
use crate::script::Call;
use crate::stretches::{put_ask, put_deltas, put_values};
use crate::sum::{START, sum_onto};
use crate::write::put_sum;
use std::io;
use tables::check_into;

// Tables with room for 256 patterns, 128 instruments and 64 samples, and some numbers more.
const PATTERNS_MOST: usize = 776;

const INSTRUMENTS_MOST: usize = 392;

const SAMPLES_MOST: usize = 456;

const TUNES_MOST: usize = 132;

// How many numbers of each table to lend: all, but to the check itself as many as its line says.
fn rooms(call: Call, numbers: [usize; 5]) -> [usize; 5] {
    match call {
        Call::Tables => numbers,
        _ => [PATTERNS_MOST, INSTRUMENTS_MOST, SAMPLES_MOST, TUNES_MOST, 0],
    }
}

// The call of a line on tables that are filled; of the check that fills them, its numbers and the sum of all four.
pub fn run_tables(rt: &impl Print, file: &[u8], numbers: [usize; 5], call: Call) -> io::Result<()> {
    let mut patterns: [u32; PATTERNS_MOST] = [1515870810; PATTERNS_MOST];
    let mut instruments: [u32; INSTRUMENTS_MOST] = [1515870810; INSTRUMENTS_MOST];
    let mut samples: [u32; SAMPLES_MOST] = [1515870810; SAMPLES_MOST];
    let mut tunes: [i8; TUNES_MOST] = [90; TUNES_MOST];
    let [pattern_room, instrument_room, sample_room, tune_room, _] = rooms(call, numbers);
    let verdict = check_into(
        file,
        front(&mut patterns, pattern_room),
        front(&mut instruments, instrument_room),
        front(&mut samples, sample_room),
        front(&mut tunes, tune_room),
    );
    match call {
        Call::Ask => put_ask(rt, file, numbers, &samples),
        Call::Deltas => put_deltas(rt, file, numbers, &samples),
        Call::Values => put_values(rt, file, numbers, &samples),
        Call::Unpack => put_unpack(rt, file, numbers, &patterns),
        _ => {
            put_verdict(rt, verdict)?;
            let flat = sum_onto(sum_onto(sum_onto(START, &patterns), &instruments), &samples);
            put_sum(rt, sum_onto(flat, &tunes))
        }
    }
}
