// A file that the check accepts.
ghost use Rattle.std.specs.Prelude.{true, ◌≡◌};
ghost use Rattle.xm.specs.Number.{Bytes};
ghost use Rattle.xm.specs.Got.{accepted};
ghost use Rattle.xm.specs.Module.{read_file};

// What a second pass goes over: it makes no test again. That bytes are bytes is known of a slice, but not of one in a struct.
// It holds a slice: no equality or printing of its own.
#[derive(Clone, Copy)]
pub struct Accepted<'a> {
    pub file: &'a [u8],
    ghost sound: { accepted (read_file file.now) ≡ true },
    ghost plain: { Bytes file.now },
}
