// The header of a file that is written: 336 bytes, or 80 and the song length in a stripped one.
ghost use Rattle.std.specs.Prelude.{◌≡◌, ◌+◌, ◌≤◌, ◌<◌, length};
ghost use Rattle.xm.specs.Answer.{in_front};
ghost use Rattle.xm.specs.Header.{size_from, orders_from, orders_most, least_header, padding, id_text, restart_of, write_header};
ghost use Rattle.steps.specs.Kind.{kind_of};
ghost use Rattle.writers.specs.Header.{tracker_by, names_of, header_numbers, orders_of, header_with};

use slices::read::read;
use slices::write::{clear, copy, copy_front, put};
use steps::kind::ModuleKind;

const ID_TEXT: [u8; 17] = *b"Extended module: ";

// Restart as it reads.
#[tactic(auto, unfolding(xm::specs::Header::restart_of, xm::specs::Header::restart_inside))]
fn restart_of(song_length: usize, restart: usize) -> usize
    ensures value { result ≡ restart_of song_length restart }
    ensures upper_bound { result ≤ restart }
{
    if restart < song_length { restart } else { 0 }
}

// The ID text: nulls in a stripped file.
fn write_id(kind: ModuleKind, out: &mut [u8])
    requires { 17 ≤ length out.old }
    ensures { out.new ≡ in_front (id_text (kind_of kind)) out.old }
{
    match kind {
        ModuleKind::Normal => copy_front::<17>(&ID_TEXT, out),
        ModuleKind::Stripped => clear(17, out),
    }
}

// The tracker name, or nulls for it.
// Whether the name is kept is yes or no: an enum of two says no more.
fn write_tracker(file: &[u8], kept: bool, out: &mut [u8])
    requires orders_from_in_bounds { orders_from ≤ length file.now }
    requires in_bounds { 20 ≤ length out.old }
    ensures { out.new ≡ in_front (tracker_by kept file.now) out.old }
{
    if kept {
        copy_front::<20>(&file[38..], out);
    } else {
        clear(20, out);
    }
}

// That the header is there is one clause of each writer: in a struct every clause would read the file through it. ID text, module name, mark, tracker name and version: 60 bytes.
fn write_names(file: &[u8], kind: ModuleKind, kept: bool, out: &mut [u8])
    requires orders_from_in_bounds { orders_from ≤ length file.now }
    requires in_bounds { 60 ≤ length out.old }
    ensures { out.new ≡ in_front (names_of (kind_of kind) (tracker_by kept file.now) file.now) out.old }
{
    write_id(kind, out);
    copy_front::<20>(&file[17..], &mut out[17..]);
    put::<u8>(kind.mark(), &mut out[37..]);
    write_tracker(file, kept, &mut out[38..]);
    put::<u16>(kind.version(), &mut out[58..]);
}

// From the header size on to the order table: 20 bytes.
fn write_numbers(file: &[u8], kind: ModuleKind, song_length: usize, patterns: usize, out: &mut [u8])
    requires orders_from_in_bounds { orders_from ≤ length file.now }
    requires song_length_bound { song_length < 65536 }
    requires patterns_bound { patterns < 65536 }
    requires in_bounds { 20 ≤ length out.old }
    ensures { out.new ≡ in_front (header_numbers (kind_of kind) song_length patterns file.now) out.old }
{
    put::<u32>(kind.least_header(song_length), out);
    put::<u16>(song_length, &mut out[4..]);
    let restart = read::<u16>(file, 0, 66);
    put::<u16>(restart_of(song_length, restart), &mut out[6..]);
    copy_front::<2>(&file[68..], &mut out[8..]);
    put::<u16>(patterns, &mut out[10..]);
    copy_front::<8>(&file[72..], &mut out[12..]);
}

// The order table, zero-filled to 256; in a stripped file it has no padding.
fn write_orders(orders: &[u8], kind: ModuleKind, out: &mut [u8])
    requires orders_len_bound { length orders.now ≤ orders_most }
    requires orders_in_bounds { length orders.now + padding (kind_of kind) (length orders.now) ≤ length out.old }
    ensures { out.new ≡ in_front (orders_of (kind_of kind) orders.now) out.old }
{
    copy(orders, out);
    let count = orders.len();
    match kind {
        ModuleKind::Normal => clear(256 - count, &mut out[count..]),
        ModuleKind::Stripped => {}
    }
}

// The header of an accepted file as it is written in a module of a kind, with its tracker name kept or not, with so many patterns, and these
// orders within the song length.
pub fn write_header(
    file: &[u8],
    kind: ModuleKind,
    kept: bool,
    patterns: usize,
    orders: &[u8],
    out: &mut [u8],
)
    requires orders_from_in_bounds { orders_from ≤ length file.now }
    requires patterns_bound { patterns < 65536 }
    requires orders_len_bound { length orders.now ≤ orders_most }
    requires orders_in_bounds { size_from + least_header (kind_of kind) (length orders.now) ≤ length out.old }
    ensures { out.new ≡ in_front (write_header (kind_of kind) (header_with (tracker_by kept file.now) patterns orders.now file.now)) out.old }
{
    write_names(file, kind, kept, out);
    write_numbers(file, kind, orders.len(), patterns, &mut out[60..]);
    write_orders(orders, kind, &mut out[80..]);
}
