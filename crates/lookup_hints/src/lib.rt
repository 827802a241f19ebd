// Hints: where the search for an id starts. The span of the ids is cut into buckets of 65,536 steps, a power of two of them; a column of short numbers, lent
// for something else and idle so long, has in two numbers the place of each bucket's first id, and inside a bucket the place is guessed by proportion. A search
// is right from any place, so no lookup relies on what `mark` leaves, and of a guess only a bound is promised.
#![tactic(auto)]

ghost use Rattle.std.specs.Prelude.{◌≡◌, ◌+◌, ◌*◌, ◌%◌, ◌≤◌, ◌<◌, max, length, set};
ghost use Rattle.lookup.specs.Lookup.{Sought};
ghost use Rattle.lookup_hints.specs.Hints.{bit_count, scaled_bits, scale_of, step_of, hint_at, with_hint, hints_of};

use lookup::find_sorted;

fn bits_of(n: u64) -> u32
    ensures { result ≡ bit_count n }
{
    64 - n.leading_zeros()
}

// To how many bits a distance is scaled: the lower 16 are steps in a bucket, the others the bucket, and the column has a pair for each and one more.
fn bits_for(room: usize) -> u32
    ensures { result ≡ scaled_bits room }
{
    if room < 4 {
        return 16;
    }
    let bits = bits_of((room / 2 - 1) as u64);
    if 16 < bits {
        return 31;
    }
    15 + bits
}

// How the distance of the last id from the first is scaled to these bits: to the right, or from 64 on to the left.
pub fn scale(ids: &[u64], room: usize) -> u32
    ensures { result ≡ scale_of ids.now room }
{
    if ids.is_empty() {
        return 0;
    }
    let first = ids[0];
    let last = ids[ids.len() - 1];
    if last <= first {
        return 0;
    }
    let bits = bits_of(last - first);
    let most = bits_for(room);
    if most < bits {
        bits - most
    } else {
        64 + most - bits
    }
}

// The step in which an id stands; the first for an id below all.
fn step_of(id: u64, first: u64, scale: u32) -> usize
    ensures { result ≡ step_of id first scale }
{
    if id < first {
        return 0;
    }
    if scale < 64 {
        return ((id - first) >> scale) as usize;
    }
    if 127 < scale {
        return 0;
    }
    ((id - first) << (scale - 64)) as usize
}

fn write(short: &mut [u16], at: usize, half: u16)
    ensures { short.new ≡ set short.old at half }
{
    if at < short.len() {
        short[at] = half;
    }
}

// A place is two short numbers.
fn put(short: &mut [u16], bucket: usize, place: usize)
    ensures { short.new ≡ with_hint short.old bucket place }
{
    if bucket < short.len() / 2 {
        write(short, 2 * bucket, (place % 65536) as u16);
        write(short, 2 * bucket + 1, (place / 65536 % 65536) as u16);
    }
}

fn joined(low: u16, high: u16) -> u32
    ensures { result ≡ low + high * 65536 }
{
    u32::from(low) + u32::from(high) * 65536
}

fn hint(short: &[u16], bucket: usize) -> u32
    requires { 2 * bucket + 1 < length short.now }
    ensures { result ≡ hint_at short.now bucket }
{
    joined(short[2 * bucket], short[2 * bucket + 1])
}

// The hints of a column of ids: from the back, so that the first id of a bucket is what stays.
pub fn mark(ids: &[u64], short: &mut [u16])
    ensures { short.new ≡ hints_of ids.now short.old }
{
    let scale = scale(ids, short.len());
    for i in (0..ids.len()).rev() {
        put(short, step_of(ids[i], ids[0], scale) / 65536, i);
    }
}

// Ahead of the first of so many ids in a bucket by proportion.
fn ahead(count: u32, part: u16) -> usize
    ensures { result ≤ count }
{
    (u64::from(count) * u64::from(part) / 65536) as usize
}

// The place by proportion between the first ids of a bucket and of the next, less what `over_lower` makes good.
fn between(low: u32, high: u32, part: u16) -> usize
    ensures { result ≤ max low high }
{
    if high <= low {
        return columns::index(low);
    }
    (columns::index(low) + ahead(high - low, part)).saturating_sub(3)
}

// Over those of the next six ids that are below the id sought, without a branch that could be foreseen wrongly.
fn over_lower(ids: &[u64], id: u64, at: usize) -> usize
    ensures { result ≤ max at (length ids.now) }
{
    if ids.len() < 6 || ids.len() - 6 < at {
        return at;
    }
    let mut place = at;
    for x in &ids[at..at + 6] {
        place += usize::from(*x < id);
    }
    place
}

fn part_of(step: usize) -> u16
    ensures { result ≡ step % 65536 }
{
    (step % 65536) as u16
}

fn guess(ids: &[u64], id: u64, short: &[u16], scale: u32) -> usize
    ensures { result ≤ max (length ids.now) 4294967295 }
{
    if ids.is_empty() || short.len() < 4 {
        return 0;
    }
    let step = step_of(id, ids[0], scale);
    let bucket = step / 65536;
    if short.len() / 2 - 2 < bucket {
        return ids.len();
    }
    over_lower(
        ids,
        id,
        between(hint(short, bucket), hint(short, bucket + 1), part_of(step)),
    )
}

// The lookup on a column that rises, from its hint: where the hints are the column's own, few looks at the ids, most of them at neighbours.
pub fn find_hinted(ids: &[u64], id: u64, short: &[u16], scale: u32) -> Result<usize, usize>
    ensures { Sought ids.now id result }
{
    let at = guess(ids, id, short, scale);
    if at < ids.len() && ids[at] == id {
        return Ok(at);
    }
    find_sorted(ids, id, at)
}
