// Reading the copied ids of an object in order, with a cursor along the escapes: each is found beside the one before, and not searched among all.
ghost use Rattle.std.specs.Prelude.{◌≡◌, cond, [], ◌∷◌, ltb, eqb, length};
ghost use Rattle.columns.specs.Lists.{◌!◌, all_of};
ghost use Rattle.columns.specs.Columns.{accepts};
ghost use Rattle.columns.specs.Ranks.{Rises};
ghost use Rattle.index.specs.Copied.{ids_of, whole, escape_back};
ghost use Rattle.rules.specs.Input.{copied_id};

use super::copied::id_held;

// An id, and the row of the escapes from which the next is sought.
#[derive(Clone, Copy)]
pub struct Read {
    pub id: u64,
    pub row: usize,
}

fn is_escaped(codes: &[u32], place: usize) -> bool
    ensures { result ≡ all_of (ltb place (length codes.now) ∷ eqb (codes.now ! place) 4294967295 ∷ []) }
{
    place < codes.len() && codes[place] == index_read::ESCAPED
}

// What an escape's id reads back as: 0 is no id.
fn whole_id(id: u64, place: usize) -> u64
    ensures { result ≡ cond (accepts (whole place id)) (whole place id ! 1) 0 }
{
    if id == 0 {
        return 0;
    }
    id
}

// The id of a place whose row this is; 0 where nothing reads back.
fn at_row(escape_places: &[u64], escape_ids: &[u64], place: usize, row: usize) -> u64
    ensures { let b = escape_back escape_places.now escape_ids.now place row in result ≡ cond (accepts b) (b ! 1) 0 }
{
    if escape_places.len() <= row {
        return 0;
    }
    if escape_places[row] != place as u64 {
        return 0;
    }
    if escape_ids.len() <= row {
        return 0;
    }
    whole_id(escape_ids[row], place)
}

// The id at a place, as `id_held` reads it, the cursor anywhere.
pub fn id_from(
    codes: &[u32],
    escape_places: &[u64],
    escape_ids: &[u64],
    base: u64,
    place: usize,
    row: usize,
) -> Read
    requires { Rises escape_places.now }
    ensures { result.id ≡ copied_id (ids_of codes.now escape_places.now escape_ids.now base) place }
{
    if is_escaped(codes, place) {
        let near = lookup::near(escape_places, place as u64, row);
        let id = at_row(escape_places, escape_ids, place, near);
        return Read { id, row: near };
    }
    let id = id_held(codes, escape_places, escape_ids, base, place);
    Read { id, row }
}
