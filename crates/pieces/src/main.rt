// Runs a script of calls on worked files, and writes each line of it with what the call gave: its answer, and a checksum of the lent
// memory afterwards. The script is `stdin` beside this folder; `stdout` there is what an independent reference, tests/pieces.py, says of it.
#![tactic(auto)]

mod files;
mod lent;
mod patterns;
mod script;
mod stretches;
mod sum;
mod tabling;
mod write;

use lent::memory;
use reading::read_full;
use script::{Call, Words};
use std::fs::File;
use std::io;
use std::rt::Files;
use write::say;

// The call of a line, on its file.
fn run_call(rt: &impl Print, file: &[u8], words: Words) -> io::Result<()> {
    match words.call {
        Call::Check => files::put_verdict(rt, walk::check(file)),
        Call::Convert => files::put_converted(rt, file, words.numbers),
        Call::Structures => files::put_structures(rt, file),
        Call::Reader => files::put_counted(rt, file),
        Call::Line => files::put_line(rt, file),
        Call::Press => files::put_press(rt, file, words.numbers),
        call => tabling::run_tables(rt, file, words.numbers, call),
    }
}

// The same, on the file that was opened.
fn run_opened<R: Files + Print>(rt: &R, mut opened: R::File, words: Words) -> io::Result<()> {
    let mut bytes = memory();
    let size = read_full(&mut opened, &mut bytes);
    run_call(rt, &bytes[..size], words)
}

// The file of a name, if it can be opened.
fn open_named<R: Files>(rt: &R, name: &[u8]) -> Option<R::File> {
    let text = str::from_utf8(name).ok()?;
    File::open(rt, text).ok()
}

// A line: it is written again, and then the answer.
fn run_line(rt: &(impl Files + Print), line: &[u8]) -> io::Result<()> {
    say(rt, line)?;
    let words = Words::of(line);
    let Some(opened) = open_named(rt, words.name) else {
        return say(rt, b" is missing\n");
    };
    say(rt, b":")?;
    run_opened(rt, opened, words)?;
    say(rt, b"\n")
}

// Every line of the script; what stands behind the last line's end is none.
fn run_script(rt: &(impl Files + Print), script: &[u8]) -> io::Result<()> {
    for line in script.split_inclusive(|byte| *byte == b'\n') {
        if let Some(line) = line.strip_suffix(b"\n") {
            run_line(rt, line)?;
        }
    }
    Ok(())
}

// The script comes from standard input.
fn main(rt: HostRuntime) -> io::Result<()> {
    let mut script = memory();
    let size = read_full(&mut rt.stdin(), &mut script);
    run_script(&rt, &script[..size])
}
