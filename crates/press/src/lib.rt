// Pressing: the shortest file of a module's content, of its own kind. And conversion: of either kind.
#![tactic(auto)]

ghost use Rattle.std.specs.Prelude.{◌≡◌, true, cond, length};
ghost use Rattle.xm.specs.ModuleKind.{normal, stripped};
ghost use Rattle.xm.specs.Header.{kind_at};
ghost use Rattle.xm.specs.Press.{pressing, press_after};
ghost use Rattle.xm.specs.Convert.{converting, convert_after};
ghost use Rattle.refusal.specs.Refusal.{outcome};
ghost use Rattle.steps.specs.Kind.{kind_of};

use module::write_module;
use refusal::{Cause, Refusal};
use steps::kind::ModuleKind;
use walk::FILE_MOST;

// A file as a module of either kind, with its tracker name kept or not. One pass over its cells checks and measures, so that nothing is written
// before the room is known to do; the other writes. What keeps the name keeps the kind, and is no longer than the file.
// Inlined, so that each pass stays a call of its own and their stack does not add up.
// The marks are numbers of two bits, 64 bytes of stack, as the header for C states it.
#[inline(always)]
fn write_as(file: &[u8], kind: ModuleKind, kept: bool, out: &mut [u8]) -> Result<usize, Refusal>
    requires { kept ≡ true → kind_of kind ≡ kind_at file.now }
    ensures answer { result ≡ outcome length (cond kept (pressing file.now (length out.old)) (converting (kind_of kind) file.now (length out.old))) }
    ensures memory { out.new ≡ cond kept (press_after file.now out.old) (convert_after (kind_of kind) file.now out.old) }
{
    let mut marks = [0; 8];
    let size = walk::walk(file, kind, &mut marks)?;
    if FILE_MOST < size {
        return Err(Cause::FileTooLong.at(0));
    }
    if out.len() < size {
        return Err(Cause::NoRoom.at(0));
    }
    write_module(file, &marks, kind, kept, out);
    Ok(size)
}

// Presses a file.
pub fn press(file: &[u8], out: &mut [u8]) -> Result<usize, Refusal>
    ensures answer { result ≡ outcome length (pressing file.now (length out.old)) }
    ensures memory { out.new ≡ press_after file.now out.old }
{
    write_as(file, ModuleKind::of(file), true, out)
}

// The shortest normal module of a file's content. Each kind has a call of its own, since README names both and C has both.
pub fn to_normal(file: &[u8], out: &mut [u8]) -> Result<usize, Refusal>
    ensures answer { result ≡ outcome length (converting normal file.now (length out.old)) }
    ensures memory { out.new ≡ convert_after normal file.now out.old }
{
    write_as(file, ModuleKind::Normal, false, out)
}

// The shortest stripped one.
pub fn to_stripped(file: &[u8], out: &mut [u8]) -> Result<usize, Refusal>
    ensures answer { result ≡ outcome length (converting stripped file.now (length out.old)) }
    ensures memory { out.new ≡ convert_after stripped file.now out.old }
{
    write_as(file, ModuleKind::Stripped, false, out)
}
