// The numbers of a pattern: its rows and channels, and the bytes of its stored form.
ghost use Rattle.std.specs.Prelude.{◌≡◌};
ghost use Rattle.xm.specs.Got.{all_pass};
ghost use Rattle.xm.specs.Run.{size_by};
ghost use Rattle.xm.specs.Packing.{argument_tests};

// Rows and channels as 16 asks for.
#[tactic(auto, unfolding(xm::specs::Got::all_pass))]
pub fn in_range(rows: usize, channels: usize) -> bool
    ensures { result ≡ all_pass (argument_tests rows channels) }
{
    (1..=256).contains(&rows) && (1..=64).contains(&channels)
}

// The bytes of a pattern's stored form, whose cells take `shortest`: none if all are empty, which take a byte each.
#[tactic(auto, unfolding(xm::specs::Run::size_by))]
pub fn stored_size(count: usize, shortest: usize) -> usize
    ensures { result ≡ size_by count shortest }
{
    if shortest == count { 0 } else { shortest }
}
