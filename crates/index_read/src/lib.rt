// One id read back from its three columns. `index` codes them, and passes this on.
#![tactic(auto)]

mod read;

ghost use Rattle.std.specs.Prelude.{◌≡◌};
ghost use Rattle.index_read.specs.Back.{id_says, ids_of, id_back};

// The code of an id that is kept whole in the escapes.
pub const ESCAPED: u32 = 4294967295;

// Why an id cannot be read back: its place is past the end, or the code there has no id.
#[derive(Clone, Copy)]
pub enum IdError {
    Index(usize),
    Copied(usize),
}

// The id at i, read from the used parts of the three columns. An escape's row is found by bisection.
pub fn id_at(
    codes: &[u32],
    escape_places: &[u64],
    escape_ids: &[u64],
    base: u64,
    i: usize,
) -> Result<u64, IdError>
    ensures { id_says result ≡ id_back (ids_of codes.now escape_places.now escape_ids.now base) i }
{
    if codes.len() <= i {
        return Err(IdError::Index(i));
    }
    let code = codes[i];
    if code == 0 {
        return Ok(0);
    }
    if code == ESCAPED {
        return read::escape_at(escape_places, escape_ids, i);
    }
    read::inline_at(base, code, i)
}
