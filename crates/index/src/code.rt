// The steps of coding ids.
ghost use Rattle.std.specs.Prelude.{◌≡◌, ◌≤◌, length};
ghost use Rattle.index.specs.Copied.{code_of, ids_coded_says, ids_coding_says, escape_rows, IdsAccepted, IdsLaid, IdsFilled, IdsEmptied};

use super::{CodedIds, IdsError};
pub use index_read::ESCAPED;

// An id's code over a base. The count of trailing zero bits decides whether the distance is a whole number of steps; of distance 0 it is 64.
pub fn code_of(id: u64, base: u64) -> u32
    ensures { result ≡ code_of base id }
{
    if id == 0 {
        return 0;
    }
    if id < base {
        return ESCAPED;
    }
    let distance = id - base;
    if distance.trailing_zeros() < 3 {
        return ESCAPED;
    }
    let steps = distance / 8 + 1;
    if 4294967294 < steps {
        return ESCAPED;
    }
    steps as u32
}

// How many escapes the ids need.
fn count_escapes(ids: &[u64], base: u64) -> usize
    ensures { result ≡ escape_rows base ids.now }
{
    ids.iter()
        .filter(|id| code_of(**id, base) == ESCAPED)
        .count()
}

// The answer, from the ids and the lengths lent for the three columns.
pub(crate) fn judge(
    ids: &[u64],
    base: u64,
    nc: usize,
    np: usize,
    ni: usize,
) -> Result<CodedIds, IdsError>
    ensures { ids_coded_says result ≡ ids_coding_says base ids.now nc np ni }
{
    let n = ids.len();
    if nc < n {
        return Err(IdsError::Room(15));
    }
    let rows = count_escapes(ids, base);
    if np < rows {
        return Err(IdsError::Room(16));
    }
    if ni < rows {
        return Err(IdsError::Room(16));
    }
    Ok(CodedIds {
        codes: n,
        escapes: rows,
    })
}

fn write(
    ids: &[u64],
    base: u64,
    codes: &mut [u32],
    escape_places: &mut [u64],
    escape_ids: &mut [u64],
)
    requires { IdsAccepted base ids.now (length codes.old) (length escape_places.old) (length escape_ids.old) }
    ensures { IdsLaid base ids.now codes.old escape_places.old escape_ids.old codes.new escape_places.new escape_ids.new }
{
    let mut k = 0;
    for (i, id) in ids.iter().enumerate() {
        let code = code_of(*id, base);
        codes[i] = code;
        if code == ESCAPED {
            escape_places[k] = i as u64;
            escape_ids[k] = *id;
            k += 1;
        }
    }
}

// The three columns of ids that are not refused, with zeros behind.
pub(crate) fn write_all(
    ids: &[u64],
    base: u64,
    rows: usize,
    codes: &mut [u32],
    escape_places: &mut [u64],
    escape_ids: &mut [u64],
)
    requires rows_value { rows ≡ escape_rows base ids.now }
    requires ids_accepted { IdsAccepted base ids.now (length codes.old) (length escape_places.old) (length escape_ids.old) }
    ensures { IdsFilled base ids.now (length codes.old) (length escape_places.old) (length escape_ids.old)
        codes.new escape_places.new escape_ids.new }
{
    write(ids, base, codes, escape_places, escape_ids);
    columns::zero(codes, ids.len());
    columns::zero(escape_places, rows);
    columns::zero(escape_ids, rows);
}

pub(crate) fn zero_all(codes: &mut [u32], escape_places: &mut [u64], escape_ids: &mut [u64])
    ensures { IdsEmptied (length codes.old) (length escape_places.old) (length escape_ids.old) codes.new escape_places.new escape_ids.new }
{
    columns::zero(codes, 0);
    columns::zero(escape_places, 0);
    columns::zero(escape_ids, 0);
}
