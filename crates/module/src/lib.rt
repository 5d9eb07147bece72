// The whole of a file that is written: the header, then each pattern and each instrument into what remains of the output.
#![tactic(auto)]

ghost use Rattle.std.specs.Prelude.{◌&&◌, not, ◌≡◌, ◌≤◌, length, replicate};
ghost use Rattle.xm.specs.Got.{Told};
ghost use Rattle.xm.specs.Format.{each};
ghost use Rattle.xm.specs.Answer.{in_front};
ghost use Rattle.xm.specs.Header.{is_stripped};
ghost use Rattle.xm.specs.PatternInFile.{pattern_format};
ghost use Rattle.xm.specs.Module.{file_most, read_file};
ghost use Rattle.steps.specs.Kind.{kind_of};
ghost use Rattle.mark.specs.Mark.{Marks};
ghost use Rattle.writers.specs.Found.{read_at, pressed_at};
ghost use Rattle.module.specs.Module.{patterns_reached, instruments_read, instruments_as, written_file};

use instruments::write_instrument;
use mark::{Mark, mark_at};
use rows::place::part_at;
use slices::read::read;
use steps::header::header_part;
use steps::kind::ModuleKind;
use steps::pattern::{Channels, pattern_head};
use writers::header::write_header;
use writers::pattern::write_pattern;

// How far the patterns reach: in the file, and in what is written of them.
#[derive(Clone, Copy, Debug, PartialEq, Eq)]
pub struct Reached {
    pub place: usize,
    pub written: usize,
}

// `count` patterns, from a place on, each into what remains of the output.
fn write_patterns(
    file: &[u8],
    at: usize,
    channels: Channels,
    count: usize,
    marks: &[u64; 8],
    out: &mut [u8],
) -> Reached
    requires count_bound { count ≤ 256 }
    requires told { Told (λ is. Marks file.now 0 is marks.now) (read_at (each pattern_format) (replicate count channels.count) file.now at) }
    requires at_in_bounds { length (pressed_at (each pattern_format) (replicate count channels.count) file.now at) ≤ length out.old }
    ensures value { result ≡ patterns_reached file.now at channels.count count }
    ensures out_after { out.new ≡ in_front (pressed_at (each pattern_format) (replicate count channels.count) file.now at) out.old }
{
    let mut place = at;
    let mut written = 0;
    for number in 0..count {
        // A number that is no mark's, which the walk never leaves, has the cells written again.
        let mark = Mark::try_from(mark_at(marks, number)).unwrap_or(Mark::Again);
        written += write_pattern(file, place, channels, mark, &mut out[written..]);
        let head = pattern_head(file, place);
        place = head.place + head.size;
    }
    Reached { place, written }
}

// `count` instruments, from a place on, each into what remains of the output, as in a stripped module or in a normal one. The file's size is
// one clause, as in `forms`.
fn write_instruments(file: &[u8], at: usize, count: usize, kind: ModuleKind, out: &mut [u8])
    requires file_len_bound { length file.now ≤ file_most }
    requires told { Told (λ is. Unit {0}) (instruments_read file.now at count) }
    requires count_in_bounds { length (instruments_as (kind_of kind) file.now at count) ≤ length out.old }
    ensures { out.new ≡ in_front (instruments_as (kind_of kind) file.now at count) out.old }
{
    let mut place = at;
    let mut written = 0;
    for _ in 0..count {
        let part = part_at(file, place);
        written += write_instrument(file, place, part, kind, &mut out[written..]);
        place = part.next;
    }
}

// Whether a tracker name is written: none that is not to be kept, and none of a stripped file, which has none.
// Whether the name is kept is yes or no: an enum of two says no more.
fn has_tracker(file: &[u8], kept: bool) -> bool
    ensures { result ≡ (not (is_stripped file.now) && kept) }
{
    match ModuleKind::of(file) {
        ModuleKind::Normal => kept,
        ModuleKind::Stripped => false,
    }
}

// An accepted file as a stripped module or as a normal one, with its tracker name kept or not, at the front of out.
// The marks are numbers of two bits, 64 bytes of stack, as the header for C states it.
pub fn write_module(file: &[u8], marks: &[u64; 8], kind: ModuleKind, kept: bool, out: &mut [u8])
    requires told { Told (λ found. Marks file.now 0 found.1.0 marks.now) (read_file file.now) }
    requires file_in_bounds { length (written_file (kind_of kind) kept file.now) ≤ length out.old }
    ensures { out.new ≡ in_front (written_file (kind_of kind) kept file.now) out.old }
{
    let part = header_part(file);
    let song_length = read::<u16>(file, 0, 64);
    let orders = 80 + song_length;
    let first = 60 + kind.least_header(song_length);
    write_header(
        file,
        kind,
        has_tracker(file, kept),
        part.patterns,
        &file[80..orders],
        out,
    );
    let channels = Channels {
        count: part.channels,
    };
    let reached = write_patterns(
        file,
        part.start,
        channels,
        part.patterns,
        marks,
        &mut out[first..],
    );
    let last = first + reached.written;
    write_instruments(
        file,
        reached.place,
        part.instruments,
        kind,
        &mut out[last..],
    );
}
