// What the loader links: eleven calls, each with the loader's one number as its answer.
#![tactic(auto)]

ghost use Rattle.std.specs.Prelude.{◌≡◌, length};
ghost use Rattle.xm.specs.Table.{check_loader, check_into_loader, room_of};
ghost use Rattle.xm.specs.Packing.{unpack_loader, unpack_after, pack_loader, pack_after};
ghost use Rattle.xm.specs.ModuleKind.{normal, stripped};
ghost use Rattle.xm.specs.Press.{press_loader, press_after};
ghost use Rattle.xm.specs.Convert.{convert_loader, convert_after};
ghost use Rattle.xm.specs.Delta.{decode_loader, decode_limited_after, code_loader, code_limited_after};
ghost use Rattle.xm.specs.Adpcm.{adpcm_loader, adpcm_limited_after};
ghost use Rattle.periods.specs.Period.{period_loader};
ghost use Rattle.tables.specs.Into.{lent, tables_then};

// The end of the last structure.
#[unsafe(no_mangle)]
pub extern "C" fn fiddlemarsh_check(file: &[u8]) -> u64
    ensures { result ≡ check_loader file.now }
{
    let verdict = walk::check(file);
    loader::answer_number(verdict)
}

// The rows that were unpacked.
#[unsafe(no_mangle)]
pub extern "C" fn fiddlemarsh_unpack(
    rows: usize,
    channels: usize,
    stored: &[u8],
    cells: &mut [u8],
) -> u64
    ensures answer { result ≡ unpack_loader rows channels stored.now (length cells.old) }
    ensures memory { cells.new ≡ unpack_after rows channels stored.now cells.old }
{
    let unpacked = cells::unpack(rows, channels, stored, cells);
    loader::answer_number(unpacked)
}

// Length + 65,536 × rows.
#[unsafe(no_mangle)]
pub extern "C" fn fiddlemarsh_pack(
    rows: usize,
    channels: usize,
    cells: &[u8],
    out: &mut [u8],
) -> u64
    ensures answer { result ≡ pack_loader rows channels cells.now (length out.old) }
    ensures memory { out.new ≡ pack_after rows channels cells.now out.old }
{
    let packed = packing::pack(rows, channels, cells, out);
    loader::answer_number(packed)
}

// The pressed length.
#[unsafe(no_mangle)]
pub extern "C" fn fiddlemarsh_press(file: &[u8], out: &mut [u8]) -> u64
    ensures answer { result ≡ press_loader file.now (length out.old) }
    ensures memory { out.new ≡ press_after file.now out.old }
{
    let pressed = press::press(file, out);
    loader::answer_number(pressed)
}

// The length of the normal module that was written.
#[unsafe(no_mangle)]
pub extern "C" fn fiddlemarsh_to_normal(file: &[u8], out: &mut [u8]) -> u64
    ensures answer { result ≡ convert_loader normal file.now (length out.old) }
    ensures memory { out.new ≡ convert_after normal file.now out.old }
{
    let converted = press::to_normal(file, out);
    loader::answer_number(converted)
}

// The length of the stripped module that was written.
#[unsafe(no_mangle)]
pub extern "C" fn fiddlemarsh_to_stripped(file: &[u8], out: &mut [u8]) -> u64
    ensures answer { result ≡ convert_loader stripped file.now (length out.old) }
    ensures memory { out.new ≡ convert_after stripped file.now out.old }
{
    let converted = press::to_stripped(file, out);
    loader::answer_number(converted)
}

// Three numbers to a pattern, three to an instrument; of a sample seven, and its two tunes apart.
#[unsafe(no_mangle)]
pub extern "C" fn fiddlemarsh_tables(
    file: &[u8],
    patterns: &mut [u32],
    instruments: &mut [u32],
    samples: &mut [u32],
    tunes: &mut [i8],
) -> u64
    ensures answer { result ≡ check_into_loader (room_of (lent patterns.old instruments.old samples.old tunes.old)) file.now }
    ensures memory { lent patterns.new instruments.new samples.new tunes.new
        ≡ tables_then file.now (lent patterns.old instruments.old samples.old tunes.old) }
{
    let verdict = tables::check_into(file, patterns, instruments, samples, tunes);
    loader::answer_number(verdict)
}

// How many values were written.
#[unsafe(no_mangle)]
pub extern "C" fn fiddlemarsh_decode(width: usize, bytes: &[u8], values: &mut [i16]) -> u64
    ensures answer { result ≡ decode_loader width bytes.now (length values.old) }
    ensures memory { values.new ≡ decode_limited_after width bytes.now values.old }
{
    let decoded = loader::limit::decode(width, bytes, values);
    loader::answer_number(decoded)
}

// How many bytes were written.
#[unsafe(no_mangle)]
pub extern "C" fn fiddlemarsh_code(width: usize, values: &[i16], bytes: &mut [u8]) -> u64
    ensures answer { result ≡ code_loader width values.now (length bytes.old) }
    ensures memory { bytes.new ≡ code_limited_after width values.now bytes.old }
{
    let coded = loader::limit::code(width, values, bytes);
    loader::answer_number(coded)
}

// `count` is the length that the sample's header says: how many values.
#[unsafe(no_mangle)]
pub extern "C" fn fiddlemarsh_adpcm(count: usize, bytes: &[u8], values: &mut [i16]) -> u64
    ensures answer { result ≡ adpcm_loader count bytes.now (length values.old) }
    ensures memory { values.new ≡ adpcm_limited_after count bytes.now values.old }
{
    let decoded = loader::limit::decode_adpcm(count, bytes, values);
    loader::answer_number(decoded)
}

// E + 65,536 × 2^(octave + 1).
#[unsafe(no_mangle)]
pub extern "C" fn fiddlemarsh_period(note: u64, finetune: i64) -> u64
    ensures { result ≡ period_loader note finetune }
{
    let tuned = periods::period(note, finetune);
    loader::answer_number(tuned)
}
