// The fields and the sample headers of an instrument, as they are written. What its own structures cut off is 0.
#![tactic(auto)]

ghost use Rattle.std.specs.Prelude.{◌≡◌, ◌+◌, ◌*◌, ◌≤◌, ◌<◌, length, take, drop};
ghost use Rattle.xm.specs.ModuleKind.{padded};
ghost use Rattle.xm.specs.Answer.{in_front};
ghost use Rattle.xm.specs.Sample.{least_head};
ghost use Rattle.xm.specs.Instrument.{least_instrument, least_stripped};
ghost use Rattle.fields.specs.Fields.{voice_in, fields_in, heads_cut};

use forms::{Form, least_size};
use slices::write::{clear, copy, copy_front, put};

// `count` bytes of a structure, from an offset on; those that are not there are 0. Mostly all are there: then so many are copied, which most
// callers tell the compiler. How much is written is not how long the part is.
fn write_cut(own: &[u8], from: usize, count: usize, out: &mut [u8])
    requires { count ≤ length out.old }
    ensures { out.new ≡ in_front (padded count (drop from own.now)) out.old }
{
    let cut = &own[from.min(own.len())..];
    let there = cut.len();
    if count <= there {
        copy(&cut[..count], out);
        return;
    }
    copy(cut, out);
    clear(count - there, &mut out[there..]);
}

// Name, type and k: 25 bytes.
fn write_front(own: &[u8], out: &mut [u8])
    requires { 25 ≤ length out.old }
    ensures { out.new ≡ in_front (padded 25 (drop 4 own.now)) out.old }
{
    if 29 <= own.len() {
        copy_front::<25>(&own[4..], out);
    } else {
        write_cut(own, 4, 25, out);
    }
}

// From 29 on in a normal module: H, bytes 33 to 240, and the reserved ones.
// One function for both kinds would ask at each field which it writes.
fn write_normal_voice(own: &[u8], out: &mut [u8])
    requires { 234 ≤ length out.old }
    ensures { out.new ≡ in_front (padded 234 (voice_in least_head own.now)) out.old }
{
    put::<u32>(40, out);
    write_cut(own, 33, 208, &mut out[4..]);
    clear(22, &mut out[212..]);
}

// The fields in a normal module: I, name, type and k, and if there are samples what follows.
// Its place is one clause: in a struct every other clause would read through it.
pub fn write_normal_fields(file: &[u8], at: usize, size: usize, samples: usize, out: &mut [u8])
    requires size_in_bounds { at + size ≤ length file.now }
    requires samples_in_bounds { least_instrument samples ≤ length out.old }
    ensures { out.new ≡ in_front (fields_in (least_instrument samples) least_head (take size (drop at file.now))) out.old }
{
    let own = &file[at..at + size];
    put::<u32>(least_size(samples), out);
    write_front(own, &mut out[4..]);
    if samples != 0 {
        write_normal_voice(own, &mut out[29..]);
    }
}

// `count` bytes from 29 on in a stripped module: H, and then those from 33 on.
// How much is written is not how long the part is.
fn write_stripped_voice(own: &[u8], head_size: usize, count: usize, out: &mut [u8])
    requires head_size_bound { head_size < 256 }
    requires le_count { (1 ≤ count) × (count ≤ 212) }
    requires count_in_bounds { count ≤ length out.old }
    ensures { out.new ≡ in_front (padded count (voice_in head_size own.now)) out.old }
{
    if count < 4 {
        put::<u8>(head_size, out);
        clear(count - 1, &mut out[1..]);
        return;
    }
    put::<u32>(head_size, out);
    write_cut(own, 33, count - 4, &mut out[4..]);
}

// The fields in a stripped module: I, and as many of the others as it says. No one function with the normal module's, which are cut nowhere
// and have 22 reserved bytes behind: it would ask at each field which of them it writes.
pub fn write_stripped_fields(file: &[u8], at: usize, size: usize, form: Form, out: &mut [u8])
    requires size_in_bounds { at + size ≤ length file.now }
    requires least_stripped_le_size { (least_stripped ≤ form.size) × (form.size ≤ 241) }
    requires head_size_bound { form.head_size < 256 }
    requires size_in_bounds_2 { form.size ≤ length out.old }
    ensures { out.new ≡ in_front (fields_in form.size form.head_size (take size (drop at file.now))) out.old }
{
    let own = &file[at..at + size];
    let end = form.size;
    put::<u32>(end, out);
    if end <= 29 {
        write_cut(own, 4, end - 4, &mut out[4..]);
        return;
    }
    write_cut(own, 4, 25, &mut out[4..]);
    write_stripped_voice(own, form.head_size, end - 29, &mut out[29..]);
}

// The first `kept` bytes of a sample header: in a normal module all 40, whose number the compiler knows.
fn write_head(head: &[u8], kept: usize, out: &mut [u8])
    requires { kept ≤ length out.old }
    ensures { out.new ≡ in_front (padded kept head.now) out.old }
{
    if kept == 40 && 40 <= head.len() {
        copy_front::<40>(head, out);
    } else {
        write_cut(head, 0, kept, out);
    }
}

// The first `kept` bytes of each of `count` sample headers.
// Its place is one clause: in a struct every other clause would read through it.
pub fn write_heads(
    file: &[u8],
    heads: usize,
    size: usize,
    count: usize,
    kept: usize,
    out: &mut [u8],
)
    requires size_in_bounds { heads + count * size ≤ length file.now }
    requires kept_le_least_head { kept ≤ least_head }
    requires kept_in_bounds { count * kept ≤ length out.old }
    ensures { out.new ≡ in_front (heads_cut count size kept (drop heads file.now)) out.old }
{
    let mut head = heads;
    let mut to = 0;
    for _ in 0..count {
        write_head(&file[head..head + size], kept, &mut out[to..]);
        head += size;
        to += kept;
    }
}
