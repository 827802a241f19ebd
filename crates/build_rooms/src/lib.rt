// The narrow stages of a build: ROOM of the first four buffers, and the end, where every column is kept or cleared.
#![tactic(auto)]

ghost use Rattle.std.specs.Prelude.{◌≡◌, ◌+◌, ◌≤◌, min, cond};
ghost use Rattle.rules.specs.Account.{no_account};
ghost use Rattle.columns.specs.Columns.{kept};
ghost use Rattle.rules.specs.Types.{checked_says, built_says};
ghost use Rattle.build_rooms.specs.Stages.{early, first_short, room_says, Settled};

use rules::{Counts, Refusal};

// A pair of columns has the room of the shorter.
pub fn least(a: usize, b: usize) -> usize
    ensures { (result ≤ b) × (result ≡ min a b) }
{
    a.min(b)
}

// The first of buffers 1 to 4 that is smaller than its need.
fn first_short(
    places: usize,
    weak: usize,
    roots: usize,
    objects: usize,
    targets: usize,
    labels: usize,
    weak_from: usize,
    weak_to: usize,
    roots_out: usize,
    bases: usize,
    short: usize,
    working: usize,
) -> Option<usize>
    ensures { result ≡ first_short places weak roots (objects + 1) (early targets labels weak_from weak_to roots_out bases short working) }
{
    if targets < places || labels < places {
        return Some(1);
    }
    if weak_from < weak || weak_to < weak {
        return Some(2);
    }
    if roots_out < roots {
        return Some(3);
    }
    if bases <= objects / 256 || short <= objects || working <= objects {
        return Some(4);
    }
    None
}

// The answer before the edges: the refusal of the checks, ROOM 1 to 4, or the numbers that are known by now.
pub fn first_rooms(
    checked: Result<usize, Refusal>,
    weak: usize,
    roots: usize,
    objects: usize,
    targets: usize,
    labels: usize,
    weak_from: usize,
    weak_to: usize,
    roots_out: usize,
    bases: usize,
    short: usize,
    working: usize,
) -> Result<Counts, Refusal>
    ensures { built_says result ≡ room_says (checked_says checked) weak roots (objects + 1) (early targets labels weak_from weak_to roots_out bases short working) }
{
    let places = checked?;
    if let Some(k) = first_short(
        places, weak, roots, objects, targets, labels, weak_from, weak_to, roots_out, bases, short,
        working,
    ) {
        return Err(Refusal::Room(k));
    }
    Ok(Counts {
        edges: 0,
        weak,
        roots,
        long: 0,
        fields: 0,
        escapes: 0,
        dangling: 0,
    })
}

// How many edges, weak pairs and roots an answer keeps: none where it refuses.
pub fn edges_kept(v: Result<Counts, Refusal>) -> usize
    ensures { result ≡ kept 1 (built_says v) }
{
    v.map_or(0, |c| c.edges)
}

pub fn weak_kept(v: Result<Counts, Refusal>) -> usize
    ensures { result ≡ kept 2 (built_says v) }
{
    v.map_or(0, |c| c.weak)
}

pub fn roots_kept(v: Result<Counts, Refusal>) -> usize
    ensures { result ≡ kept 3 (built_says v) }
{
    v.map_or(0, |c| c.roots)
}

// The account of a refused build is zero.
fn settle_account(ok: bool, account: &mut [[u64; 3]; 4])
    ensures { account.new ≡ cond ok account.old no_account }
{
    if !ok {
        *account = [[0; 3]; 4];
    }
}

// The work columns are zeroed, and the unused ends of the others: all of them where the answer refuses.
pub fn settle(
    v: Result<Counts, Refusal>,
    targets: &mut [u32],
    labels: &mut [u32],
    weak_from: &mut [u32],
    weak_to: &mut [u32],
    roots_out: &mut [u32],
    working: &mut [u64],
    account: &mut [[u64; 3]; 4],
)
    ensures { Settled (built_says v)
        targets.old labels.old weak_from.old weak_to.old roots_out.old working.old account.old
        targets.new labels.new weak_from.new weak_to.new roots_out.new working.new account.new }
{
    let edges = edges_kept(v);
    let weak = weak_kept(v);
    columns::zero(targets, edges);
    columns::zero(labels, 0);
    columns::zero(weak_from, weak);
    columns::zero(weak_to, weak);
    columns::zero(roots_out, roots_kept(v));
    columns::zero(working, 0);
    settle_account(v.is_ok(), account);
}
