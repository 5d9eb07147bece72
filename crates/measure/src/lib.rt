// Stored cells checked and measured in one pass: how short they can be, and whether they stand so already.
#![tactic(auto)]

ghost use Rattle.std.specs.Prelude.{◌≡◌, ◌+◌, ◌*◌, ◌≤◌, true, ◌&&◌, eqb, length, drop};
ghost use Rattle.xm.specs.Got.{AllHold};
ghost use Rattle.xm.specs.Cell.{bit};
ghost use Rattle.xm.specs.Short.{short_by};
ghost use Rattle.xm.specs.Stored.{read_run, read_stored};
ghost use Rattle.xm.specs.Packing.{argument_tests};
ghost use Rattle.ahead.specs.Ahead.{block_size, Follows};
ghost use Rattle.measure.specs.Measure.{no_cells, measured_on, stored_of};
ghost use Rattle.measure.specs.Weight.{cells_most, some_of, plain_weight, marked_weight, weight_of, weights_from, weighed, weigh_of, long_lead, Skipped};

use cell::read::chosen;
use cell::{pattern, read};
use refusal::{Cause, Step};

// Of stored cells: the bytes that they take, those of their shortest form, and whether they stand in that form already, which the lengths
// alone do not tell.
#[derive(Clone, Copy, Debug, PartialEq, Eq)]
pub struct StoredSize {
    pub used: usize,
    pub shortest: usize,
    pub same: bool,
}

// What the weights of cells come to: by how many bytes their shortest forms are longer than the bytes that aren't 0, and one for each; and
// how many of them aren't in that form, whatever its length.
// Private to a loop: nothing compares or prints it.
#[derive(Clone, Copy)]
struct Sums {
    extra: usize,
    odd: usize,
}

// How far into a block the cells go that begin in it, how many cells are left, and what the weights come to.
// Private to a loop: nothing compares or prints it.
#[derive(Clone, Copy)]
struct Weigh {
    at: usize,
    left: usize,
    sums: Sums,
}

// How many bytes the cells take that need not be measured, and how many cells are left.
// Private to a loop: nothing compares or prints it.
#[derive(Clone, Copy)]
struct Skip {
    used: usize,
    left: usize,
}

// How many of a block's bytes aren't 0, counted in a byte: so that many are counted at once.
#[tactic(auto, using(crate::proofs::WeightLaws::some_none, crate::proofs::WeightLaws::some_one, crate::proofs::WeightLaws::some_most))]
fn some_in_block(block: &[u8; 64]) -> u8
    ensures { result ≡ some_of block_size block.now }
{
    let mut sum = 0;
    for byte in block {
        sum += u8::from(*byte != 0);
    }
    sum
}

// How many of all, a block at a time: for 900 bytes 41 ns, where `filter` and `count` take 767.
#[tactic(auto, using(crate::proofs::WeightLaws::some_none, crate::proofs::WeightLaws::some_one, crate::proofs::WeightLaws::some_most))]
fn some_in(bytes: &[u8]) -> usize
    ensures { result ≡ some_of (length bytes.now) bytes.now }
{
    let (blocks, rest) = bytes.as_chunks::<64>();
    let mut sum = 0;
    for block in blocks {
        sum += usize::from(some_in_block(block));
    }
    for byte in rest {
        sum += usize::from(*byte != 0);
    }
    sum
}

// A plain cell's weight, by its note and by how many of the other four fields aren't 0.
fn plain_weight(note: u8, others: u8) -> u8
    requires { others ≤ 4 }
    ensures { result ≡ plain_weight note others }
{
    chosen(u8::from(note != 0) + others == 5, 1, 18)
}

// A marked cell's, by its lead byte, the note that is there if all five fields are, and how many of five bytes behind it aren't 0.
fn marked_weight(lead: u8, note: u8, fields: u8) -> u8
    requires { fields ≤ 5 }
    ensures { result ≡ marked_weight lead note fields }
{
    let full = u8::from(128 <= note);
    let form = 16 * u8::from(160 <= lead);
    chosen(lead % 32 + fields == 36, full, 1) + form
}

// The weight of the cell that the byte at a place would lead.
// Its place is one clause: in a struct every other clause would read through it.
fn weight_at(stored: &[u8], place: usize) -> u8
    requires { place + 6 ≤ length stored.now }
    ensures { result ≡ weight_of (drop place stored.now) }
{
    let lead = stored[place];
    let note = stored[place + 1];
    // each 1 if that byte behind the lead isn't 0
    let first = u8::from(note != 0);
    let second = u8::from(stored[place + 2] != 0);
    let third = u8::from(stored[place + 3] != 0);
    let fourth = u8::from(stored[place + 4] != 0);
    let fifth = u8::from(stored[place + 5] != 0);
    let plain = plain_weight(lead, first + second + third + fourth);
    let marked = marked_weight(lead, note, first + second + third + fourth + fifth);
    chosen(lead < 128, plain, marked)
}

// The weights of the cells that the bytes from a place on would lead, whatever they are.
// By place and size, since it reads five bytes behind its block.
fn fill_weights(stored: &[u8], place: usize, size: usize, weights: &mut [u8; 64])
    requires size_in_bounds { place + size + 5 ≤ length stored.now }
    requires size_le_block_size { size ≤ block_size }
    ensures { Follows (weights_from stored.now place) size weights.new }
{
    for i in 0..size {
        weights[i] = weight_at(stored, place + i);
    }
}

// From one cell to the next in a block, onto what the weights before came to. `scan` has this walk with nothing to add: one for both would
// want a closure, and read no plainer.
fn weigh_block(lengths: &[u8], weights: &[u8], count: usize, before: Sums) -> Weigh
    requires weights_len { length lengths.now ≤ length weights.now }
    requires count_le_cells_most { count ≤ cells_most }
    requires before_bound { (before.extra ≤ 15 * cells_most) × (before.odd ≤ 15 * cells_most) }
    ensures { result ≡ weigh_of (weighed lengths.now weights.now (length lengths.now) count 0 before) }
{
    let mut at = 0;
    let mut left = count;
    let mut sums = before;
    while at < lengths.len() && 0 < left {
        let weight = usize::from(weights[at]);
        sums.extra += weight % 16;
        sums.odd += weight / 16;
        at += usize::from(lengths[at]);
        left -= 1;
    }
    Weigh { at, left, sums }
}

// Whether a cell that takes `used` bytes stands in its shortest form, and all before it did: four tests, and no jump.
// Whether they stand so already is yes or no: an enum of two says no more.
fn still_same(same: bool, lead: u8, used: usize, kept: usize, shortest: usize) -> bool
    requires { kept ≤ 5 }
    ensures { result ≡ (same && short_by lead used kept shortest) }
{
    same & (lead < 160) & (usize::from(lead / 128) + kept == used) & (shortest == used)
}

// So many cells, one by one, onto what those before them came to.
fn measure_from(stored: &[u8], before: StoredSize, count: usize) -> Step<StoredSize>
    requires used_in_bounds { before.used ≤ length stored.now }
    requires shortest_le_used { before.shortest ≤ before.used }
    ensures { result ≡ measured_on before (drop before.used stored.now) (read_run count before.used (drop before.used stored.now)) }
{
    let mut size = before;
    for _ in 0..count {
        let step = read::try_cell(stored, size.used);
        let Step::Given(next) = step else {
            return Step::Refused(step.refusal());
        };
        let cell = read::take_cell(stored, size.used);
        let kept = read::kept_count(cell);
        let least = read::shortest_by(cell.note, kept);
        let same = still_same(size.same, stored[size.used], next - size.used, kept, least);
        size = StoredSize {
            used: next,
            shortest: size.shortest + least,
            same,
        };
    }
    Step::Given(size)
}

// Whether a cell none of whose fields is 0 stands in another form than its shortest: bit 5 or 6 isn't 0, or all five fields follow a lead
// byte that the note can do without.
#[tactic(auto, unfolding(crate::specs::Weight::long_lead))]
fn is_longer(lead: u8, note: u8) -> bool
    ensures { result ≡ long_lead lead note }
{
    if lead == 159 { note < 128 } else { 159 < lead }
}

// Of bytes none of which is 0: as many cells from the first on as stand in their shortest form, two or more at a time.
fn skip_short(stored: &[u8], count: usize) -> Skip
    requires { some_of (length stored.now) stored.now ≡ length stored.now }
    ensures { Skipped stored.now count result }
{
    let mut used = 0;
    let mut left = count;
    let mut eight = ahead::first_eight(stored);
    while 9 <= left && 21 <= stored.len() - used {
        let turn = ahead::look_ahead(stored, used, eight);
        let last = turn.last;
        if is_longer(stored[used], stored[used + 1]) || is_longer(stored[last], stored[last + 1]) {
            break;
        }
        used = turn.next;
        left -= turn.cells + 1;
        eight = ahead::eight_at(stored, used);
    }
    Skip { used, left }
}

// The cells that need not be measured: where few are empty, they are measured faster than tried so.
fn skipped(stored: &[u8], count: usize) -> Skip
    ensures { Skipped stored.now count result }
{
    if stored.len() / 2 <= count && some_in(stored) == stored.len() {
        return skip_short(stored, count);
    }
    Skip {
        used: 0,
        left: count,
    }
}

// A run of `count` cells, a block at a time. All that is left from the last block on, or from one whose last cell is cut, goes one by one.
#[tactic(auto, using(crate::proofs::WeightLaws::some_front, crate::proofs::WeightLaws::some_most))]
fn measure_cells(stored: &[u8], count: usize) -> Step<StoredSize>
    requires { count ≤ cells_most }
    ensures { result ≡ measured_on no_cells stored.now (read_run count 0 stored.now) }
{
    // two rows: each is filled many bytes at once
    let mut lengths = [0u8; 64];
    let mut weights = [0u8; 64];
    let skip = skipped(stored, count);
    let mut used = skip.used;
    let mut left = skip.left;
    let mut sums = Sums {
        extra: count - left,
        odd: 0,
    };
    while 0 < left && 5 < stored.len() - used {
        let rest = stored.len() - used;
        let size = ahead::block_of(rest - 5);
        ahead::fill_lengths(stored, used, size, &mut lengths);
        fill_weights(stored, used, size, &mut weights);
        let walk = weigh_block(&lengths[..size], &weights[..size], left, sums);
        if rest < walk.at {
            break;
        }
        used += walk.at;
        left = walk.left;
        sums = walk.sums;
    }
    // as many bytes as aren't 0, and those by which the shortest forms are longer
    let shortest = some_in(&stored[..used]) + sums.extra - (count - left);
    let before = StoredSize {
        used,
        shortest,
        same: (sums.odd == 0) & (shortest == used),
    };
    measure_from(stored, before, left)
}

// A stored pattern. One that needs no data is written as no bytes, which these are not.
// Measured here, only tried in `scan`: one for both would want a closure with a longer contract.
pub fn read_stored(stored: &[u8], rows: usize, channels: usize) -> Step<StoredSize>
    requires { AllHold (argument_tests rows channels) }
    ensures { result ≡ stored_of stored.now (read_stored channels rows 0 stored.now) }
{
    if stored.is_empty() {
        return Step::Given(StoredSize {
            used: 0,
            shortest: 0,
            same: true,
        });
    }
    let count = rows * channels;
    let step = measure_cells(stored, count);
    let Step::Given(size) = step else {
        return step;
    };
    if size.used < stored.len() {
        return Step::Refused(Cause::BytesLeft.at(size.used));
    }
    if pattern::stored_size(count, size.shortest) == 0 {
        return Step::Given(StoredSize {
            used: size.used,
            shortest: 0,
            same: false,
        });
    }
    step
}
