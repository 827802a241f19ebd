// Column 1: the offsets.
ghost use Rattle.std.specs.Prelude.{◌≡◌, ◌-◌, ◌<◌, length, take};
ghost use Rattle.columns.specs.Lists.{first_place};
ghost use Rattle.check_ids.specs.Copying.{fault_says};
ghost use Rattle.rules.specs.Parts.{below, bad_offsets};

// How many objects an offset column has: an empty one has none.
pub fn object_count(offsets: usize) -> usize
    ensures { result ≡ offsets - 1 }
{
    offsets.saturating_sub(1)
}

// The first offset below the one before it, or the number of offsets.
fn first_fall(offsets: &[u64]) -> usize
    requires { 0 < length offsets.now }
    ensures { result ≡ first_place (below offsets.now) (length offsets.now) }
{
    for i in 1..offsets.len() {
        if offsets[i] < offsets[i - 1] {
            return i;
        }
    }
    offsets.len()
}

// The first fault of the offsets.
pub(crate) fn first_offset(offsets: &[u64], edges: usize) -> Option<usize>
    ensures { fault_says result ≡ take 1 (bad_offsets offsets.now edges) }
{
    if offsets.len() == 0 {
        return Some(0);
    }
    if 0 < offsets[0] {
        return Some(0);
    }
    let i = first_fall(offsets);
    if i < offsets.len() {
        return Some(i);
    }
    let last = offsets.len() - 1;
    if offsets[last] == edges as u64 {
        return None;
    }
    Some(last)
}
