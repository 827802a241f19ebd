// The spans of a list of objects, by the short columns. Each is told by a few tests, so that many reads are on their way at once.
#![tactic(auto)]

ghost use Rattle.std.specs.Prelude.{◌<◌, ◌≤◌, IfSome, length};
ghost use Rattle.ask_short.specs.Lean.{short_of};
ghost use Rattle.ask_each_spans.specs.Told.{Based, Few, Telling};

use std::num::wrapping_sub_u32;

// How many offsets have a base: all, or none is trusted.
fn based(bases: &[u64], short: &[u16]) -> usize
    ensures { Based (length bases.now) (length short.now) result }
{
    if short.is_empty() {
        return 0;
    }
    if bases.len() <= (short.len() - 1) / 256 {
        return 0;
    }
    short.len()
}

// The lesser of two lengths, in 32 bits.
pub fn limit(codes: usize, targets: usize) -> u64
    ensures { (result ≤ codes) × (result ≤ targets) × (result < 4294967296) }
{
    codes.min(targets).min(4294967295) as u64
}

// How many edges an object has, where both its offsets are short and of one block, and these are few and end by the limit.
fn few(bases: &[u64], short: &[u16], known: usize, limit: u64, object: u32) -> Option<u8>
    requires { Based (length bases.now) (length short.now) known × (limit < 4294967296) }
    ensures { IfSome result (λ count. (count < 255) × Few bases.now short.now limit object count) }
{
    let at = object as usize;
    let next = at + 1;
    if known <= next {
        return None;
    }
    if next % 256 == 0 {
        return None;
    }
    let last = u32::from(short[next]);
    if 65534 < last {
        return None;
    }
    let count = wrapping_sub_u32(last, u32::from(short[at]));
    if 254 < count {
        return None;
    }
    let base = bases[at / 256];
    if limit < base {
        return None;
    }
    if limit < base + u64::from(last) {
        return None;
    }
    Some(count as u8)
}

// The spans of all objects, kept in the columns that the answers will stand in. One that leaves a doubt is marked 255.
pub fn spans(
    bases: &[u64],
    short: &[u16],
    limit: u64,
    objects: &[u32],
    own_targets: &mut [u32],
    found: &mut [u8],
)
    requires { (length objects.now ≤ length own_targets.old) × (length objects.now ≤ length found.old) × (limit < 4294967296) }
    ensures { Telling (short_of bases.now short.now) limit limit objects.now 0
        own_targets.old found.old own_targets.new found.new (length objects.now) }
{
    let known = based(bases, short);
    for i in 0..objects.len() {
        let object = objects[i];
        let Some(count) = few(bases, short, known, limit, object) else {
            found[i] = 255;
            continue;
        };
        let at = object as usize;
        own_targets[i] = (bases[at / 256] + u64::from(short[at])) as u32;
        found[i] = count;
    }
}
