// Reads a module of at most 65,535 bytes from standard input, and always writes one line. A read that fails counts as the input's end.
#![tactic(auto)]

use reading::read_full;
use std::io;
use std::io::Write;

// One line for what standard input has.
fn main(rt: HostRuntime) -> io::Result<()> {
    let mut input = [0u8; 65536]; // one byte more than the most, which shows that there is more
    let size = read_full(&mut rt.stdin(), &mut input);
    let mut text = [0u8; 128];
    let length = line::fill_line(&input[..size], &mut text);
    rt.stdout().write_all(&text[..length])
}
