// The check of copied ids: the escapes rise, every code has its id, and every escape its code.
ghost use Rattle.std.specs.Prelude.{◌≡◌, not, ◌+◌, ◌<◌, eqb, length, take};
ghost use Rattle.columns.specs.Lists.{first_place, one};
ghost use Rattle.columns.specs.Ranks.{Rises};
ghost use Rattle.index.specs.Copied.{escaped_code};
ghost use Rattle.rules.specs.Verdict.{falls, bad_copied};
ghost use Rattle.check_ids.specs.Copying.{fault_says, has_row, escape_id, code_fault, good_on, walk_faults, id_columns, copied_columns};
ghost use Rattle.check_ids.specs.Copying.{held_codes, escaped_codes, escape_fault, base_fault, is_clean, TestedCodes};

use index::code::ESCAPED;

#[tactic(auto, unfolding(columns::specs::Lists::all_of))]
fn is_fall(escape_places: &[u64], i: usize) -> bool
    requires { i < length escape_places.now }
    ensures { result ≡ falls escape_places.now i }
{
    0 < i && escape_places[i] <= escape_places[i - 1]
}

// The first escape that does not rise above the one before it, or the number of escapes.
fn first_fall(escape_places: &[u64]) -> usize
    ensures { result ≡ first_place (falls escape_places.now) (length escape_places.now) }
{
    (0..escape_places.len())
        .position(|i| is_fall(escape_places, i))
        .unwrap_or(escape_places.len())
}

// Whether row k is the escape of position p.
#[tactic(auto, unfolding(crate::specs::Copying::has_row, columns::specs::Lists::all_of))]
fn has_row(escape_places: &[u64], k: usize, p: usize) -> bool
    ensures { result ≡ has_row escape_places.now k p }
{
    k < escape_places.len() && escape_places[k] == p as u64
}

// The id of the escape of position p, if row k is that; else 0, which no escape may have.
#[tactic(auto, unfolding(crate::specs::Copying::escape_id))]
fn escape_id(escape_places: &[u64], escape_ids: &[u64], k: usize, p: usize) -> u64
    requires { length escape_ids.now ≡ length escape_places.now }
    ensures { result ≡ escape_id escape_places.now escape_ids.now k p }
{
    if has_row(escape_places, k, p) {
        escape_ids[k]
    } else {
        0
    }
}

// Whether a code has no id: an escape without a row or with id 0, or a distance that leads to 0 or past 64 bits.
#[tactic(auto, unfolding(crate::specs::Copying::code_fault, columns::specs::Lists::any_of))]
fn code_fault(code: u32, base: u64, id: u64) -> bool
    ensures { result ≡ code_fault code base id }
{
    if code == 0 {
        return false;
    }
    if code == ESCAPED {
        return id == 0;
    }
    let Some(id) = base.checked_add(8 * u64::from(code - 1)) else {
        return true;
    };
    id == 0
}

// How many escapes, from the first, have their code: one more where the row of this position has, and all before it do.
#[tactic(auto, unfolding(crate::specs::Copying::good_on, columns::specs::Lists::all_of))]
fn good_on(good: usize, rows: usize, row: bool, code: u32) -> usize
    requires { good < 18446744073709551615 }
    ensures { result ≡ good_on good rows row code }
{
    good + usize::from(row && code == ESCAPED && good == rows)
}

// The place of the first bad code, else of the first bad escape, in one walk along both.
fn first_walk(codes: &[u32], escape_places: &[u64], escape_ids: &[u64], base: u64) -> Option<usize>
    requires escape_ids_len { length escape_ids.now ≡ length escape_places.now }
    requires rises { Rises escape_places.now }
    ensures { fault_says result ≡ take 1 (walk_faults (id_columns codes.now escape_places.now escape_ids.now base)) }
{
    let mut rows = 0;
    let mut good = 0;
    for (p, code) in codes.iter().enumerate() {
        if code_fault(*code, base, escape_id(escape_places, escape_ids, rows, p)) {
            return Some(p);
        }
        let row = has_row(escape_places, rows, p);
        good = good_on(good, rows, row, *code);
        rows += usize::from(row);
    }
    if good < escape_places.len() {
        return Some(good);
    }
    None
}

// How many codes are not 0, and how many are escapes.
#[derive(Clone, Copy)]
struct Totals {
    held: usize,
    escaped: usize,
}

#[tactic(auto, unfolding(crate::specs::Copying::held_codes, crate::specs::Copying::escaped_codes))]
fn count_codes(codes: &[u32]) -> Totals
    ensures held_value { result.held ≡ held_codes codes.now }
    ensures escaped_value { result.escaped ≡ escaped_codes codes.now }
{
    let mut held = 0;
    let mut escaped = 0;
    for code in codes {
        held += usize::from(*code != 0);
        escaped += usize::from(*code == ESCAPED);
    }
    Totals { held, escaped }
}

// Whether escape k has no code or no id.
#[tactic(auto, unfolding(crate::specs::Copying::escape_fault, columns::specs::Lists::any_of))]
fn escape_fault(codes: &[u32], escape_places: &[u64], escape_ids: &[u64], k: usize) -> bool
    requires k_in_bounds { k < length escape_places.now }
    requires escape_ids_len { length escape_ids.now ≡ length escape_places.now }
    ensures { result ≡ escape_fault codes.now escape_places.now escape_ids.now k }
{
    let p = escape_places[k];
    codes.len() as u64 <= p || codes[p as usize] != ESCAPED || escape_ids[k] == 0
}

// The first escape that has no code or no id, or the number of escapes.
fn first_escape(codes: &[u32], escape_places: &[u64], escape_ids: &[u64]) -> usize
    requires { length escape_ids.now ≡ length escape_places.now }
    ensures { result ≡ first_place (escape_fault codes.now escape_places.now escape_ids.now) (length escape_places.now) }
{
    (0..escape_places.len())
        .position(|k| escape_fault(codes, escape_places, escape_ids, k))
        .unwrap_or(escape_places.len())
}

// Whether a code can lead to 0 or past 64 bits: the highest that is no escape leads 8 * 4294967293 on.
#[tactic(auto, unfolding(crate::specs::Copying::base_fault, columns::specs::Lists::any_of))]
fn base_fault(base: u64) -> bool
    ensures { result ≡ base_fault base }
{
    base == 0 || base.checked_add(34359738344).is_none()
}

// Whether there is no fault, by a test that is quick and does not look where one is: where it fails, there may be none.
#[tactic(auto, unfolding(crate::specs::Copying::is_clean, columns::specs::Lists::all_of))]
fn is_clean(
    codes: &[u32],
    escape_places: &[u64],
    escape_ids: &[u64],
    base: u64,
    escaped: usize,
) -> bool
    requires { length escape_ids.now ≡ length escape_places.now }
    ensures { result ≡ is_clean (id_columns codes.now escape_places.now escape_ids.now base) escaped }
{
    escaped == escape_places.len()
        && !base_fault(base)
        && escape_places.len() <= first_escape(codes, escape_places, escape_ids)
}

// How many codes are not 0; or, as an error, the place of the first fault of copied ids: the first escape not rising, else the first bad code, else the first
// bad escape. The walk along both is slow, and is left out where the quick test shows that it would find nothing.
pub fn first_copied(
    codes: &[u32],
    escape_places: &[u64],
    escape_ids: &[u64],
    base: u64,
) -> Result<usize, usize>
    requires { length escape_ids.now ≡ length escape_places.now }
    ensures { TestedCodes (bad_copied (copied_columns codes.now escape_places.now escape_ids.now base)) codes.now result }
{
    let fall = first_fall(escape_places);
    if fall < escape_places.len() {
        return Err(fall);
    }
    let n = count_codes(codes);
    if is_clean(codes, escape_places, escape_ids, base, n.escaped) {
        return Ok(n.held);
    }
    match first_walk(codes, escape_places, escape_ids, base) {
        Some(p) => Err(p),
        None => Ok(n.held),
    }
}
