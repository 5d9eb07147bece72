// Reading into lent memory: what the programs share.
#![tactic(auto)]

ghost use Rattle.std.specs.Prelude.{◌≤◌, length, take};
ghost use Rattle.std.specs.Io.KnownBytes.{Consumes};

use std::io::Read;

// Reads until the memory is full, the input ends or a read fails; how many bytes stand at its front then. Of an input whose bytes are known
// they are just those.
pub fn read_full<R: Read>(input: &mut R, memory: &mut [u8]) -> usize
    ensures bound { result ≤ length memory.new }
    ensures bytes { Consumes (R.remaining input.old) (R.remaining input.new) (take result memory.new) }
{
    let mut done: usize = 0;
    while done < memory.len() {
        match input.read(&mut memory[done..]) {
            Ok(0) | Err(_) => break,
            Ok(count) => done += count,
        }
    }
    done
}
