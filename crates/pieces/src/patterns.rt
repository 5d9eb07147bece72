// A pattern's data unpacked, by its row of the table.
use crate::lent::{front, memory, part};
use crate::write::{put_answer, put_lent};
use std::io;

// A number of a table; 0 past its end.
pub fn entry(table: &[u32], at: usize) -> usize {
    table.get(at).map_or(0, |number| *number as usize)
}

// A pattern's data, by its row of the table.
fn stored_of<'a>(file: &'a [u8], patterns: &[u32], row: usize) -> &'a [u8] {
    let at = 3 * row.min(256);
    part(file, entry(patterns, at), entry(patterns, at + 1))
}

// Numbers: the pattern, data bytes skipped, rows, channels, the room.
pub fn put_unpack(
    rt: &impl Print,
    file: &[u8],
    numbers: [usize; 5],
    patterns: &[u32],
) -> io::Result<()> {
    let [row, skipped, rows, channels, room] = numbers;
    let stored = stored_of(file, patterns, row);
    let mut lent = memory();
    let data = part(stored, skipped, stored.len());
    put_answer(
        rt,
        cells::unpack(rows, channels, data, front(&mut lent, room)),
    )?;
    put_lent(rt, &lent, room)
}
