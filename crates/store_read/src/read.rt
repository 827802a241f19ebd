// The steps of reading one offset back.
ghost use Rattle.std.specs.Prelude.{◌≡◌};
ghost use Rattle.columns.specs.Ranks.{bisect};
ghost use Rattle.store_read.specs.Back.{long_back, short_back, offset_says};

use super::ReadError;

pub(crate) fn long_at(long_at: &[u32], long_value: &[u64], i: usize) -> Result<u64, ReadError>
    ensures { offset_says result ≡ long_back long_at.now long_value.now i (bisect long_at.now i) }
{
    let k = columns::bisect(long_at, i as u64);
    if long_at.len() <= k {
        return Err(ReadError::Columns(i));
    }
    if columns::index(long_at[k]) != i {
        return Err(ReadError::Columns(i));
    }
    if long_value.len() <= k {
        return Err(ReadError::Columns(i));
    }
    Ok(long_value[k])
}

// A short number on its block's base.
pub fn short_at(bases: &[u64], s: u16, i: usize) -> Result<u64, ReadError>
    ensures { offset_says result ≡ short_back bases.now s i }
{
    let b = i / 256;
    if bases.len() <= b {
        return Err(ReadError::Columns(i));
    }
    let base = bases[b];
    let d = s as u64;
    if 18446744073709551615 - base < d {
        return Err(ReadError::Columns(i));
    }
    Ok(base + d)
}
