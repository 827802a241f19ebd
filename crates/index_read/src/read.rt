// The steps of reading one id back.
ghost use Rattle.std.specs.Prelude.{◌≡◌, ◌+◌, ◌-◌, ◌*◌, ◌<◌};
ghost use Rattle.columns.specs.Ranks.{bisect};
ghost use Rattle.index_read.specs.Back.{whole, escape_back, id_says};

use super::IdError;

// An id that stands for a code that is not zero, so it may not be zero either.
fn id_of(id: u64, i: usize) -> Result<u64, IdError>
    ensures { id_says result ≡ whole i id }
{
    if id == 0 {
        return Err(IdError::Copied(i));
    }
    Ok(id)
}

pub(crate) fn escape_at(escape_places: &[u64], escape_ids: &[u64], i: usize) -> Result<u64, IdError>
    ensures { id_says result ≡ escape_back escape_places.now escape_ids.now i (bisect escape_places.now i) }
{
    let at = i as u64;
    let k = columns::bisect(escape_places, at);
    if escape_places.len() <= k {
        return Err(IdError::Copied(i));
    }
    if escape_places[k] != at {
        return Err(IdError::Copied(i));
    }
    if escape_ids.len() <= k {
        return Err(IdError::Copied(i));
    }
    id_of(escape_ids[k], i)
}

pub(crate) fn inline_at(base: u64, code: u32, i: usize) -> Result<u64, IdError>
    requires { 0 < code }
    ensures { id_says result ≡ whole i (base + 8 * (code - 1)) }
{
    let far = 8 * u64::from(code - 1);
    let Some(id) = base.checked_add(far) else {
        return Err(IdError::Copied(i));
    };
    id_of(id, i)
}
