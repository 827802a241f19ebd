// The place of an id in a column of ids: by a walk from the front, and on a column that rises by a search that starts from a guess.
#![tactic(auto)]

ghost use Rattle.std.specs.Prelude.{◌≡◌, length};
ghost use Rattle.columns.specs.Ranks.{Ranked};
ghost use Rattle.lookup.specs.Lookup.{lookup_of, Sought, Held};

// A walk from the front, on any column: where the id stands first; or, as an error, how many ids are below it, which on a column that rises is where it
// would stand.
pub fn find_plain(ids: &[u64], id: u64) -> Result<usize, usize>
    ensures { result ≡ lookup_of ids.now id }
{
    let mut below: usize = 0;
    for (i, x) in ids.iter().enumerate() {
        if *x == id {
            return Ok(i);
        }
        below += usize::from(*x < id);
    }
    Err(below)
}

// The same on a column that rises, at the cost of `near`.
pub fn find_sorted(ids: &[u64], id: u64, guess: usize) -> Result<usize, usize>
    ensures { Sought ids.now id result }
{
    let k = near(ids, id, guess);
    if k < ids.len() && ids[k] == id {
        return Ok(k);
    }
    Err(k)
}

// How many ids of a column that rises are below the id, from any guess: for one that is right one look at the column, for one that is d places off
// about 2 log d.
pub fn near(ids: &[u64], id: u64, guess: usize) -> usize
    ensures { Ranked ids.now id result }
{
    if ids.len() <= guess {
        return down(ids, id, ids.len());
    }
    let at = ids[guess];
    if at == id {
        return guess;
    }
    if at < id {
        return up(ids, id, guess + 1);
    }
    down(ids, id, guess)
}

// Steps that double, up from a place that is not too high; `over` ids are stepped over. A column has fewer than 2^60 ids, so no step wraps.
fn up(ids: &[u64], id: u64, from: usize) -> usize
    requires { Held ids.now id from (length ids.now) }
    ensures { Ranked ids.now id result }
{
    let mut lo = from;
    let mut over: usize = 0;
    while over < ids.len() - lo {
        let at = lo + over;
        if id <= ids[at] {
            return within(ids, id, lo, at);
        }
        lo = at + 1;
        over = 2 * over + 1;
    }
    within(ids, id, lo, ids.len())
}

// The same, down from a place that is not too low.
fn down(ids: &[u64], id: u64, from: usize) -> usize
    requires { Held ids.now id 0 from }
    ensures { Ranked ids.now id result }
{
    let mut hi = from;
    let mut over: usize = 0;
    while over < hi {
        let at = hi - 1 - over;
        if ids[at] < id {
            return within(ids, id, at + 1, hi);
        }
        hi = at;
        over = 2 * over + 1;
    }
    within(ids, id, 0, hi)
}

// Bisection between two places.
fn within(ids: &[u64], id: u64, from: usize, to: usize) -> usize
    requires { Held ids.now id from to }
    ensures { Ranked ids.now id result }
{
    let mut lo = from;
    let mut hi = to;
    while lo < hi {
        let mid = lo + (hi - lo) / 2;
        if ids[mid] < id {
            lo = mid + 1;
        } else {
            hi = mid;
        }
    }
    lo
}
