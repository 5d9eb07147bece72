// A line of the script: a file's name, a call's, and up to five numbers, with a space between.
ghost use Rattle.std.specs.Prelude.{◌≤◌, length};

// What is called, told by the first two letters of its name.
#[derive(Clone, Copy, PartialEq, Eq)]
pub enum Call {
    Check,
    Convert,
    Structures,
    Reader,
    Line,
    Press,
    Tables,
    Ask,
    Deltas,
    Values,
    Unpack,
}

impl From<[u8; 2]> for Call {
    fn from(letters: [u8; 2]) -> Call {
        match letters {
            [b'c', b'o'] => Call::Convert,
            [b'c', _] => Call::Check,
            [b's', _] => Call::Structures,
            [b'r', _] => Call::Reader,
            [b'l', _] => Call::Line,
            [_, b'r'] => Call::Press,
            [b't', _] => Call::Tables,
            [b'a', _] => Call::Ask,
            [b'd', _] => Call::Deltas,
            [b'v', _] => Call::Values,
            _ => Call::Unpack,
        }
    }
}

// A line's words.
// It holds a slice: no equality or printing of its own.
#[derive(Clone, Copy)]
pub struct Words<'a> {
    pub name: &'a [u8],
    pub call: Call,
    pub numbers: [usize; 5],
}

// The number that a word stands for.
fn number_of(word: &[u8]) -> usize {
    word.iter().fold(0, |number, digit| {
        number % 1000000000 * 10 + usize::from(digit % 16)
    })
}

impl<'a> Words<'a> {
    // 0 for each letter and number that the line doesn't have. The name lies in the line.
    pub fn of(line: &'a [u8]) -> Words<'a>
        ensures { length result.name.now ≤ length line.now }
    {
        let mut words = line.split(|byte| *byte == b' ');
        let name = words.next().unwrap_or(line);
        let letter = |behind: usize| line.get(name.len() + behind).copied().unwrap_or(0);
        let call = Call::from([letter(1), letter(2)]);
        let mut numbers = [0; 5];
        for (number, word) in numbers.iter_mut().zip(words.skip(1)) {
            *number = number_of(word);
        }
        Words {
            name,
            call,
            numbers,
        }
    }
}
