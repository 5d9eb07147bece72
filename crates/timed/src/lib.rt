// What the benchmark times beside the library's calls: the small reader, run to the end.
#![tactic(auto)]

ghost use Rattle.std.specs.Prelude.{◌≡◌};
ghost use Rattle.xm.specs.Answer.{result as result_in};
ghost use Rattle.reader.specs.Count.{total, counting};

use reader::count::count_structures;

// How many structures were handed over; none of a refused file.
#[unsafe(no_mangle)]
pub extern "C" fn timed_reader(file: &[u8]) -> usize
    ensures { result ≡ result_in total (counting file.now) }
{
    match count_structures(file) {
        Ok(counts) => counts.patterns + counts.instruments + counts.samples,
        Err(_) => 0,
    }
}
