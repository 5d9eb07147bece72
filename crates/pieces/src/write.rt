// The program's words and numbers, on standard output.
use crate::lent::part;
use crate::sum::{Digit, START, sum_onto};
use asking::Stretch;
use reader::count::Counts;
use refusal::Refusal;
use std::io;
use std::io::Write;
use walk::Module;

// Words, as they stand.
pub fn say(rt: &impl Print, words: &[u8]) -> io::Result<()> {
    io::writer(rt).write_all(words)
}

// A space, and a number.
pub fn put(rt: &impl Print, number: usize) -> io::Result<()> {
    print!(rt; " {number}")
}

// What a call gives, by its first two numbers; 0 for a second that it doesn't have.
pub trait Results: Copy {
    fn results(self) -> [usize; 2];
}

impl Results for usize {
    fn results(self) -> [usize; 2] {
        [self, 0]
    }
}

impl Results for Stretch {
    fn results(self) -> [usize; 2] {
        [self.place, self.length]
    }
}

impl Results for Counts {
    fn results(self) -> [usize; 2] {
        [self.patterns, self.instruments]
    }
}

impl Results for Module {
    fn results(self) -> [usize; 2] {
        [self.end, self.channels]
    }
}

// An answer: a refusal's number and place, and two results; 0 for what there is none of.
pub fn put_answer<T: Results>(rt: &impl Print, answer: Result<T, Refusal>) -> io::Result<()> {
    let numbers = match answer {
        Ok(given) => {
            let [first, second] = given.results();
            [0, 0, first, second]
        }
        Err(refusal) => [refusal.number as usize, refusal.place, 0, 0],
    };
    for number in numbers {
        put(rt, number)?;
    }
    Ok(())
}

// A checksum.
pub fn put_sum(rt: &impl Print, sum: u64) -> io::Result<()> {
    say(rt, b" sum")?;
    put(rt, sum as usize)
}

// The checksum of a list.
pub fn put_sum_of<T: Digit>(rt: &impl Print, numbers: &[T]) -> io::Result<()> {
    put_sum(rt, sum_onto(START, numbers))
}

// Memory of which so much was lent, and 16 bytes behind that.
pub fn put_lent(rt: &impl Print, memory: &[u8], room: usize) -> io::Result<()> {
    let lent = part(memory, 0, room.min(memory.len()) + 16);
    put_sum_of(rt, lent)
}
