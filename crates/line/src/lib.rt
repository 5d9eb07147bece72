// The listing's one line: `ok END CHANNELS PATTERNS INSTRUMENTS SAMPLES`, or `refused NUMBER PLACE`.
#![tactic(auto)]

ghost use Rattle.std.specs.Prelude.{◌≡◌, ◌+◌, ◌≤◌, ◌++◌, length, IfOk};
ghost use Rattle.xm.specs.Answer.{in_front};
ghost use Rattle.xm.specs.Lay.{lay};
ghost use Rattle.refusal.specs.Refusal.{outcome};
ghost use Rattle.line.specs.Decimal.{last_digit, decimal};
ghost use Rattle.line.specs.Line.{numbered, line_of, listing, results_of};
ghost use Rattle.line.specs.Filled.{Front};

use reader::count::count_from;
use refusal::{Cause, Refusal};
use slices::write::copy;
use structures::start_checked;
use walk::check;

// "65,536 or more input bytes give `refused 2 0`."
const LISTED_MOST: usize = 65535;

// The last decimal digit of a number, as a letter.
// By hand, as `put_decimal` says.
fn last_digit(number: usize) -> u8
    ensures { result ≡ last_digit number }
{
    b'0' + (number % 10) as u8
}

// A number's decimal digits, from a place on; the answer is the place behind them. By hand: the library is without heap, and std has no
// `write!` into a lent slice whose clause says the bytes.
fn put_decimal(number: usize, line: &mut [u8], at: usize) -> usize
    requires { at + length (decimal number) ≤ length line.old }
    ensures place { result ≡ at + length (decimal number) }
    ensures memory { line.new ≡ lay line.old at (decimal number) }
{
    if number < 10 {
        line[at] = last_digit(number);
        return at + 1;
    }
    let last = put_decimal(number / 10, line, at);
    line[last] = last_digit(number);
    last + 1
}

// Each number behind a space, and the line's end.
// By hand, as `put_decimal` says.
fn put_numbers(numbers: &[usize], line: &mut [u8], at: usize) -> usize
    requires { at + length (numbered numbers.now) ≤ length line.old }
    ensures place { result ≡ at + length (numbered numbers.now) }
    ensures memory { line.new ≡ lay line.old at (numbered numbers.now) }
{
    let mut next = at;
    for number in numbers {
        line[next] = b' ';
        next = put_decimal(*number, line, next + 1);
    }
    line[next] = b'\n';
    next + 1
}

// A text and numbers: a whole line, and how many bytes it has.
fn put_line(text: &[u8], numbers: &[usize], line: &mut [u8]) -> usize
    requires { length (text.now ++ numbered numbers.now) ≤ length line.old }
    ensures size { result ≡ length (text.now ++ numbered numbers.now) }
    ensures memory { line.new ≡ in_front (text.now ++ numbered numbers.now) line.old }
    ensures front { Front result line.new }
{
    copy(text, line);
    put_numbers(numbers, line, text.len())
}

// The numbers of a file's line: the end and the channels by the check, and what the small reader counted. The file is checked once: the
// small reader starts from the verdict.
fn list(input: &[u8]) -> Result<[usize; 5], Refusal>
    ensures answer { result ≡ outcome results_of (listing input.now) }
    ensures short { IfOk result (λ numbers. length (numbered numbers) ≤ 106) }
{
    if LISTED_MOST < input.len() {
        return Err(Cause::FileTooLong.at(0));
    }
    let verdict = check(input);
    let found = verdict?;
    let counts = count_from(input, start_checked(input, verdict))?;
    Ok([
        found.end,
        found.channels,
        counts.patterns,
        counts.instruments,
        counts.samples,
    ])
}

// The line of a file, at the front of what is lent, and how many bytes it has: a text of its own would need a heap.
pub fn fill_line(input: &[u8], line: &mut [u8; 128]) -> usize
    ensures size { result ≡ length (line_of (listing input.now)) }
    ensures memory { line.new ≡ in_front (line_of (listing input.now)) line.old }
    ensures front { Front result line.new }
{
    match list(input) {
        Ok(numbers) => put_line(b"ok", &numbers, line),
        Err(refusal) => put_line(b"refused", &[refusal.number as usize, refusal.place], line),
    }
}
