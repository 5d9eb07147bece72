// Calls on a file alone: the check, the structures in order, their counts, the listing's line, the press and the conversions.
use crate::lent::{front, memory};
use crate::write::{put, put_answer, put_lent, say};
use reader::count::count_structures;
use refusal::Refusal;
use std::io;
use structures::{Structure, StructureKind, hand, start};
use walk::Module;

// The check's numbers.
pub fn put_verdict(rt: &impl Print, verdict: Result<Module, Refusal>) -> io::Result<()> {
    put_answer(rt, verdict)?;
    let Ok(module) = verdict else {
        return Ok(());
    };
    put(rt, module.patterns)?;
    put(rt, module.instruments)?;
    put(rt, module.samples)
}

// A structure's kind and place.
fn put_structure(rt: &impl Print, structure: Structure) -> io::Result<()> {
    let kind: &[u8] = match structure.kind {
        StructureKind::Pattern => b" pattern",
        StructureKind::Instrument => b" instrument",
        StructureKind::SampleHeader => b" sample",
    };
    say(rt, kind)?;
    put(rt, structure.place)
}

// More structures than any file of the script has.
const STRUCTURES_MOST: usize = 1000;

// All structures in order, and the end.
pub fn put_structures(rt: &impl Print, file: &[u8]) -> io::Result<()> {
    let mut reached = start(file);
    for _ in 0..STRUCTURES_MOST {
        let handed = hand(file, reached);
        match handed.standing {
            Ok(Some(structure)) => put_structure(rt, structure)?,
            Ok(None) => return say(rt, b" end"),
            Err(refusal) => return put_answer::<usize>(rt, Err(refusal)),
        }
        reached = handed.reached;
    }
    Ok(())
}

// What the small reader counted.
pub fn put_counted(rt: &impl Print, file: &[u8]) -> io::Result<()> {
    let counted = count_structures(file);
    put_answer(rt, counted)?;
    counted.map_or(Ok(()), |counts| put(rt, counts.samples))
}

// The listing's line, with its own end.
pub fn put_line(rt: &impl Print, file: &[u8]) -> io::Result<()> {
    let mut text = [0u8; 128];
    let length = line::fill_line(file, &mut text);
    say(rt, b" ")?;
    say(rt, &text[..length])
}

// Numbers: the room.
pub fn put_press(rt: &impl Print, file: &[u8], numbers: [usize; 5]) -> io::Result<()> {
    let [room, ..] = numbers;
    let mut lent = memory();
    put_answer(rt, press::press(file, front(&mut lent, room)))?;
    put_lent(rt, &lent, room)
}

// Numbers: the kind, 1 for a stripped module and else a normal one; the room.
pub fn put_converted(rt: &impl Print, file: &[u8], numbers: [usize; 5]) -> io::Result<()> {
    let [kind, room, ..] = numbers;
    let mut lent = memory();
    let out = front(&mut lent, room);
    let answer = match kind {
        1 => press::to_stripped(file, out),
        _ => press::to_normal(file, out),
    };
    put_answer(rt, answer)?;
    put_lent(rt, &lent, room)
}
