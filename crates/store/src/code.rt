// The steps of coding offsets.
ghost use Rattle.std.specs.Prelude.{◌≡◌, ◌≤◌, ◌<◌, ◌*◌, ◌+◌, min, length};
ghost use Rattle.columns.specs.Columns.{over};
ghost use Rattle.store.specs.Blocked.{above_at, first_low, coding_says, coded_says, long_rows, Accepted, Filled, bases_to, short_to, LongWritten, Emptied};

use super::{CodedOffsets, OffsetsError};

// How far the number at i is above its block's base.
fn above(values: &[u64], i: usize) -> u64
    requires { i < length values.now }
    ensures { result ≡ above_at values.now i }
{
    values[i].saturating_sub(values[i / 256 * 256])
}

// The first place whose number is below its block's base, or the length.
fn first_low(values: &[u64]) -> usize
    ensures { result ≡ first_low values.now }
{
    for (i, v) in values.iter().enumerate() {
        if *v < values[i / 256 * 256] {
            return i;
        }
    }
    values.len()
}

// How many rows the long list needs.
pub fn count_long(values: &[u64]) -> usize
    ensures { result ≡ long_rows values.now }
{
    let mut rows = 0;
    for i in 0..values.len() {
        if 65535 <= above(values, i) {
            rows += 1;
        }
    }
    rows
}

// The answer, from the numbers and the lengths lent for the four columns.
pub(crate) fn judge(
    values: &[u64],
    nb: usize,
    ns: usize,
    na: usize,
    nv: usize,
) -> Result<CodedOffsets, OffsetsError>
    ensures { coded_says result ≡ coding_says values.now nb ns na nv }
{
    let n = values.len();
    if 67108865 < n {
        return Err(OffsetsError::Limit);
    }
    let low = first_low(values);
    if low < n {
        return Err(OffsetsError::Parts(low));
    }
    let blocks = (n + 255) / 256;
    if nb < blocks {
        return Err(OffsetsError::Room(4));
    }
    if ns < n {
        return Err(OffsetsError::Room(4));
    }
    let rows = count_long(values);
    if na < rows {
        return Err(OffsetsError::Room(5));
    }
    if nv < rows {
        return Err(OffsetsError::Room(5));
    }
    Ok(CodedOffsets {
        bases: blocks,
        short: n,
        long: rows,
    })
}

fn write_bases(values: &[u64], bases: &mut [u64], blocks: usize)
    requires { (blocks ≤ length bases.old) × (blocks * 256 ≤ length values.now + 255) }
    ensures { bases.new ≡ over (bases_to values.now blocks) bases.old }
{
    for b in 0..blocks {
        bases[b] = values[b * 256];
    }
}

// A difference as it is stored: 65,535 stands for it and all over.
fn short_of(d: u64) -> u16
    ensures { result ≡ min d 65535 }
{
    if d < 65535 { d as u16 } else { 65535 }
}

fn write_short(values: &[u64], short: &mut [u16])
    requires { length values.now ≤ length short.old }
    ensures { short.new ≡ over (short_to values.now (length values.now)) short.old }
{
    for i in 0..values.len() {
        short[i] = short_of(above(values, i));
    }
}

// The long rows, up to the last: where there are none, no number is read.
fn write_long(values: &[u64], rows: usize, long_at: &mut [u32], long_value: &mut [u64])
    requires { (length values.now ≤ 67108865) × (rows ≡ long_rows values.now) × (rows ≤ length long_at.old) × (rows ≤ length long_value.old) }
    ensures { LongWritten values.now long_at.old long_value.old long_at.new long_value.new }
{
    let mut k = 0;
    for (i, v) in values.iter().enumerate() {
        if rows <= k {
            return;
        }
        if 65535 <= above(values, i) {
            long_at[k] = i as u32;
            long_value[k] = *v;
            k += 1;
        }
    }
}

// The four columns of numbers that are not refused, with zeros behind.
pub fn write_all(
    values: &[u64],
    rows: usize,
    bases: &mut [u64],
    short: &mut [u16],
    long_at: &mut [u32],
    long_value: &mut [u64],
)
    requires rows_value { rows ≡ long_rows values.now }
    requires accepted { Accepted values.now (length bases.old) (length short.old) (length long_at.old) (length long_value.old) }
    ensures { Filled values.now (length bases.old) (length short.old) (length long_at.old) (length long_value.old)
        bases.new short.new long_at.new long_value.new }
{
    let n = values.len();
    let blocks = (n + 255) / 256;
    write_bases(values, bases, blocks);
    columns::zero(bases, blocks);
    write_short(values, short);
    columns::zero(short, n);
    write_long(values, rows, long_at, long_value);
    columns::zero(long_at, rows);
    columns::zero(long_value, rows);
}

// All four columns zero, as after a refusal.
pub fn zero_all(bases: &mut [u64], short: &mut [u16], long_at: &mut [u32], long_value: &mut [u64])
    ensures { Emptied (length bases.old) (length short.old) (length long_at.old) (length long_value.old)
        bases.new short.new long_at.new long_value.new }
{
    columns::zero(bases, 0);
    columns::zero(short, 0);
    columns::zero(long_at, 0);
    columns::zero(long_value, 0);
}
