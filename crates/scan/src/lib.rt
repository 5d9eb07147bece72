// Stored cells that are only tried, for 7, and a stored pattern's for 8 too: where they end.
#![tactic(auto)]

ghost use Rattle.std.specs.Prelude.{◌≡◌, ◌≤◌, length, drop};
ghost use Rattle.xm.specs.Got.{AllHold};
ghost use Rattle.xm.specs.Stored.{read_run, read_stored};
ghost use Rattle.xm.specs.Packing.{argument_tests};
ghost use Rattle.refusal.specs.Refusal.{place_step};
ghost use Rattle.scan.specs.Block.{walk_of, block_passed};

use cell::read;
use refusal::{Cause, Step};

// How far into a block the cells go that begin in it, and how many cells are left.
// Private to a loop: nothing compares or prints it.
#[derive(Drop)]
struct Walk {
    at: usize,
    left: usize,
}

// The cells from a place on, one by one.
// Its place is one clause: in a struct every other clause would read through it.
fn scan_from(stored: &[u8], from: usize, count: usize) -> Step<usize>
    requires { from ≤ length stored.now }
    ensures { result ≡ place_step from (read_run count from (drop from stored.now)) }
{
    let mut used = from;
    for _ in 0..count { // one by one, to the last
        let step = read::try_cell(stored, used);
        let Step::Given(next) = step else {
            return step;
        };
        used = next;
    }
    Step::Given(used)
}

// Where most cells are empty: two or more at a time, by the eight that stands here.
fn scan_sparse(stored: &[u8], count: usize) -> Step<usize>
    ensures { result ≡ place_step 0 (read_run count 0 stored.now) }
{
    let mut used = 0;
    let mut left = count;
    let mut eight = ahead::first_eight(stored);
    while 9 <= left && 21 <= stored.len() - used {
        let turn = ahead::look_ahead(stored, used, eight);
        used = turn.next;
        left -= turn.cells + 1;
        eight = ahead::eight_at(stored, used);
    }
    scan_from(stored, used, left)
}

// From one cell to the next in a block of lengths.
fn walk_block(lengths: &[u8], count: usize) -> Walk
    ensures { result ≡ walk_of (block_passed lengths.now (length lengths.now) count 0) }
{
    let mut at = 0;
    let mut left = count;
    while at < lengths.len() && 0 < left {
        at += usize::from(lengths[at]);
        left -= 1;
    }
    Walk { at, left }
}

// Where few are: the lengths of a block first, whatever its bytes are, so that from one cell to the next it is one load. A block whose
// last cell is cut is tried again one by one, for its place.
fn scan_dense(stored: &[u8], count: usize) -> Step<usize>
    ensures { result ≡ place_step 0 (read_run count 0 stored.now) }
{
    let mut lengths = [0u8; 64];
    let mut used = 0;
    let mut left = count;
    while 0 < left && used < stored.len() {
        let rest = stored.len() - used;
        let size = ahead::block_of(rest);
        ahead::fill_lengths(stored, used, size, &mut lengths);
        let walk = walk_block(&lengths[..size], left);
        if rest < walk.at {
            break;
        }
        used += walk.at;
        left = walk.left;
    }
    scan_from(stored, used, left)
}

// A run of `count` cells: dense if they take more than two bytes each.
fn scan_cells(stored: &[u8], count: usize) -> Step<usize>
    ensures { result ≡ place_step 0 (read_run count 0 stored.now) }
{
    if count < stored.len() / 2 {
        return scan_dense(stored, count);
    }
    scan_sparse(stored, count)
}

// A stored pattern.
// Only tried here, measured in `measure`: one for both would want a closure with a longer contract.
pub fn scan_stored(stored: &[u8], rows: usize, channels: usize) -> Step<usize>
    requires { AllHold (argument_tests rows channels) }
    ensures { result ≡ place_step 0 (read_stored channels rows 0 stored.now) }
{
    if stored.is_empty() {
        return Step::Given(0);
    }
    let step = scan_cells(stored, rows * channels);
    let Step::Given(used) = step else {
        return step;
    };
    if used < stored.len() {
        return Step::Refused(Cause::BytesLeft.at(used));
    }
    step
}
