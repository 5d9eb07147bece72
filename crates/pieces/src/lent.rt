// Memory to lend. Every byte of it is 5A hex, in the tables too, and as a place that is in no file.

// Room for the cells of 256 rows of 64 channels, for a file, and for the script.
pub fn memory() -> [u8; 81936] {
    [90; 81936]
}

// A stretch of what is lent, or what of it is there.
pub fn part<T>(items: &[T], place: usize, size: usize) -> &[T] {
    let rest = &items[place.min(items.len())..];
    &rest[..size.min(rest.len())]
}

// So much of the memory from its front on, or all of it.
pub fn front<T>(memory: &mut [T], size: usize) -> &mut [T] {
    let room = size.min(memory.len());
    &mut memory[..room]
}
