// The check of the objects' parts: of the codes on the copied route, of the bytes on the raw one.
ghost use Rattle.std.specs.Prelude.{◌≡◌, ◌+◌, ◌≤◌, length};
ghost use Rattle.columns.specs.Lists.{first_place};
ghost use Rattle.rules.specs.Verdict.{bad_span};
ghost use Rattle.check_ids.specs.Spans.{slots_of, part_length, copied_span_fault, raw_span_fault, copied_spans, raw_spans};

// How many slots an object's class has, 0 for what is no instance.
#[tactic(auto, unfolding(crate::specs::Spans::slots_of))]
pub fn slots_of(kind: u8, class: u32, slot_starts: &[u32], slot_ends: &[u32]) -> u32
    requires { length slot_ends.now ≡ length slot_starts.now }
    ensures { result ≡ slots_of kind class slot_starts.now slot_ends.now }
{
    let c = columns::index(class);
    if 0 < kind || slot_starts.len() <= c {
        return 0;
    }
    slot_ends[c].saturating_sub(slot_starts[c])
}

// The length of an object's part of the codes: its slots or its elements.
#[tactic(auto, unfolding(crate::specs::Spans::slots_of, crate::specs::Spans::part_length))]
pub fn part_of(kind: u8, class: u32, len: u32, slot_starts: &[u32], slot_ends: &[u32]) -> u32
    requires { length slot_ends.now ≡ length slot_starts.now }
    ensures { result ≡ part_length kind class len slot_starts.now slot_ends.now }
{
    if kind == 1 {
        return len;
    }
    slots_of(kind, class, slot_starts, slot_ends)
}

#[tactic(auto, unfolding(crate::specs::Spans::copied_span_fault, columns::specs::Lists::all_of))]
fn copied_fault(kind: u8, start: u32, part: u32, codes: usize) -> bool
    ensures { result ≡ copied_span_fault kind start part codes }
{
    kind < 2 && (codes as u64) < u64::from(start) + u64::from(part)
}

// The first object whose part ends past the codes, or the number of objects.
pub fn first_copied_span(
    kinds: &[u8],
    classes: &[u32],
    lengths: &[u32],
    slot_starts: &[u32],
    slot_ends: &[u32],
    codes: &[u32],
    starts: &[u32],
) -> usize
    requires classes_len { length classes.now ≡ length kinds.now }
    requires lengths_len { length lengths.now ≡ length kinds.now }
    requires starts_len { length starts.now ≡ length kinds.now }
    requires slot_ends_len { length slot_ends.now ≡ length slot_starts.now }
    ensures { result ≡ first_place (bad_span (copied_spans kinds.now classes.now lengths.now slot_starts.now slot_ends.now
        codes.now starts.now)) (length kinds.now) }
{
    for o in 0..kinds.len() {
        let part = part_of(kinds[o], classes[o], lengths[o], slot_starts, slot_ends);
        if copied_fault(kinds[o], starts[o], part, codes.len()) {
            return o;
        }
    }
    kinds.len()
}

// The end of a part is not summed, as it may pass 64 bits.
#[tactic(auto, unfolding(crate::specs::Spans::raw_span_fault, columns::specs::Lists::all_of, columns::specs::Lists::any_of))]
fn raw_fault(kind: u8, len: u32, start: u64, body: u32, bytes: usize, size: usize) -> bool
    requires { size ≤ 8 }
    ensures { result ≡ raw_span_fault kind len start body bytes size }
{
    kind < 2
        && ((bytes as u64) < start
            || bytes as u64 - start < u64::from(body)
            || (kind == 1 && columns::index(body) != columns::index(len) * size))
}

// The first object whose body ends past the bytes, or is not its elements' ids, or the number of objects.
pub fn first_raw_span(
    kinds: &[u8],
    lengths: &[u32],
    bytes: &[u8],
    size: usize,
    starts: &[u64],
    bodies: &[u32],
) -> usize
    requires lengths_len { length lengths.now ≡ length kinds.now }
    requires starts_len { length starts.now ≡ length kinds.now }
    requires bodies_len { length bodies.now ≡ length kinds.now }
    requires size_bound { size ≤ 8 }
    ensures { result ≡ first_place (bad_span (raw_spans kinds.now lengths.now bytes.now size starts.now bodies.now)) (length kinds.now) }
{
    for o in 0..kinds.len() {
        if raw_fault(
            kinds[o],
            lengths[o],
            starts[o],
            bodies[o],
            bytes.len(),
            size,
        ) {
            return o;
        }
    }
    kinds.len()
}
