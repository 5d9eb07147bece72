// The two kinds of module: which of them a file is, and what differs in its header.
ghost use Rattle.std.specs.Prelude.{◌≡◌, ◌<◌};
ghost use Rattle.xm.specs.Header.{mark, version, least_header, kind_at};
ghost use Rattle.steps.specs.Kind.{kind_of};

use slices::read::read_in;

#[derive(Clone, Copy, Debug, PartialEq, Eq)]
pub enum ModuleKind {
    Normal,
    Stripped,
}

impl ModuleKind {
    // A file's: stripped if it has a stripped module's mark and version. Where the mark is another the version is not looked at.
    pub fn of(file: &[u8]) -> ModuleKind
        ensures { kind_of result ≡ kind_at file.now }
    {
        let size = file.len();
        let mark = read_in::<u8>(file, 0, size, 37);
        if mark != 0 {
            return ModuleKind::Normal;
        }
        let version = read_in::<u16>(file, 0, size, 58);
        if version == 0 {
            ModuleKind::Stripped
        } else {
            ModuleKind::Normal
        }
    }

    // The mark, byte 37.
    pub fn mark(self) -> usize
        ensures { result ≡ mark (kind_of self) }
    {
        match self {
            ModuleKind::Normal => 0x1A,
            ModuleKind::Stripped => 0,
        }
    }

    // The version.
    pub fn version(self) -> usize
        ensures { result ≡ version (kind_of self) }
    {
        match self {
            ModuleKind::Normal => 0x0104,
            ModuleKind::Stripped => 0,
        }
    }

    // The least header size, which the press writes.
    pub fn least_header(self, song_length: usize) -> usize
        requires { song_length < 65536 }
        ensures { result ≡ least_header (kind_of self) song_length }
    {
        match self {
            ModuleKind::Normal => 276,
            ModuleKind::Stripped => 20 + song_length,
        }
    }
}
