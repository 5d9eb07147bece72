// A pattern of a pressed file.
ghost use Rattle.std.specs.Prelude.{◌≡◌, ◌≤◌, length};
ghost use Rattle.xm.specs.Got.{Told};
ghost use Rattle.xm.specs.Answer.{in_front};
ghost use Rattle.xm.specs.Stored.{rows_most};
ghost use Rattle.xm.specs.PatternInFile.{data_most, pattern_format};
ghost use Rattle.mark.specs.Mark.{Marked};
ghost use Rattle.writers.specs.Found.{read_at, pressed_at};
ghost use Rattle.writers.specs.Pattern.{written_head};

use mark::Mark;
use shortest::stored::write_stored;
use slices::write::put;
use steps::pattern::{Channels, pattern_head};

// L, packing type, rows and S: 9 bytes.
fn write_head(rows: usize, size: usize, out: &mut [u8])
    requires rows_le_rows_most { rows ≤ rows_most }
    requires size_le_data_most { size ≤ data_most }
    requires in_bounds { 9 ≤ length out.old }
    ensures { out.new ≡ in_front (written_head rows size) out.old }
{
    put::<u32>(9, out);
    put::<u8>(0, &mut out[4..]);
    put::<u16>(rows, &mut out[5..]);
    put::<u16>(size, &mut out[7..]);
}

// The pattern at a place of an accepted file, in its shortest form at the front of out; its length there.
pub fn write_pattern(
    file: &[u8],
    at: usize,
    channels: Channels,
    mark: Mark,
    out: &mut [u8],
) -> usize
    requires told { Told (λ i. Marked file.now i mark) (read_at pattern_format channels.count file.now at) }
    requires at_in_bounds { length (pressed_at pattern_format channels.count file.now at) ≤ length out.old }
    ensures value { result ≡ length (pressed_at pattern_format channels.count file.now at) }
    ensures out_after { out.new ≡ in_front (pressed_at pattern_format channels.count file.now at) out.old }
{
    let head = pattern_head(file, at);
    let end = head.place + head.size;
    let shortest = write_stored(
        &file[head.place..end],
        head.rows,
        channels.count,
        mark,
        &mut out[9..],
    );
    write_head(head.rows, shortest, out);
    9 + shortest
}
