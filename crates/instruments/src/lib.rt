// An instrument of a file that is written: its fields, its sample headers and its samples' data.
#![tactic(auto)]

ghost use Rattle.std.specs.Prelude.{◌≡◌, ◌+◌, ◌≤◌, length, take, drop};
ghost use Rattle.xm.specs.Answer.{in_front};
ghost use Rattle.xm.specs.Module.{file_most};
ghost use Rattle.steps.specs.Kind.{kind_of};
ghost use Rattle.steps.specs.Step.{InstrumentIs};
ghost use Rattle.fields.specs.Fields.{fields_in};
ghost use Rattle.instruments.specs.Form.{FieldsFit};
ghost use Rattle.writers.specs.Found.{instrument_as};

use fields::{write_heads, write_normal_fields, write_stripped_fields};
use forms::{Form, form_of};
use slices::write::copy;
use steps::instrument::InstrumentPart;
use steps::kind::ModuleKind;

// Its fields, in the form of a normal module or of a stripped one.
fn write_fields(
    file: &[u8],
    at: usize,
    part: InstrumentPart,
    form: Form,
    kind: ModuleKind,
    out: &mut [u8],
)
    requires there { at + part.size ≤ length file.now }
    requires form_fits { FieldsFit (kind_of kind) part form }
    requires size_in_bounds { form.size ≤ length out.old }
    ensures { out.new ≡ in_front (fields_in form.size form.head_size (take part.size (drop at file.now))) out.old }
{
    match kind {
        ModuleKind::Normal => write_normal_fields(file, at, part.size, part.samples, out),
        ModuleKind::Stripped => write_stripped_fields(file, at, part.size, form, out),
    }
}

// The instrument that was read at a place, as it is written in a module of either kind; its length there. The data of all its samples stand
// back to back, there as here. The file's size is one clause, as in `forms`.
pub fn write_instrument(
    file: &[u8],
    at: usize,
    part: InstrumentPart,
    kind: ModuleKind,
    out: &mut [u8],
) -> usize
    requires instrument_is { InstrumentIs file.now at part }
    requires file_len_bound { length file.now ≤ file_most }
    requires at_in_bounds { length (instrument_as (kind_of kind) file.now at) ≤ length out.old }
    ensures value { result ≡ length (instrument_as (kind_of kind) file.now at) }
    ensures out_after { out.new ≡ in_front (instrument_as (kind_of kind) file.now at) out.old }
{
    let form = form_of(file, at, part, kind);
    let heads = at + part.size;
    let data = heads + part.samples * part.head_size;
    let end = part.next;
    let first = form.size;
    let last = first + part.samples * form.head_size;
    write_fields(file, at, part, form, kind, out);
    write_heads(
        file,
        heads,
        part.head_size,
        part.samples,
        form.head_size,
        &mut out[first..],
    );
    copy(&file[data..end], &mut out[last..]);
    form.length
}
