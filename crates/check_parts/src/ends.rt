// Column 4: the weak pairs.
ghost use Rattle.std.specs.Prelude.{◌≡◌, length};
ghost use Rattle.columns.specs.Lists.{first_place};
ghost use Rattle.rules.specs.Parts.{bad_pair};
ghost use Rattle.check_parts.specs.Checks.{pair_fault};

// Whether the pair (a, b) is at fault behind the pair (a0, b0).
fn pair_fault(objects: usize, a0: u32, b0: u32, a: u32, b: u32) -> bool
    ensures { result ≡ pair_fault objects a0 b0 a b }
{
    if objects <= columns::index(a) {
        return true;
    }
    if objects <= columns::index(b) {
        return true;
    }
    if a0 < a {
        return false;
    }
    if a < a0 {
        return true;
    }
    b < b0
}

// The first weak pair at fault, or their number. No pair comes before (0, 0), so that the first one needs no test of its own.
pub(crate) fn first_pair(weak_from: &[u32], weak_to: &[u32], objects: usize) -> usize
    requires { length weak_to.now ≡ length weak_from.now }
    ensures { result ≡ first_place (bad_pair objects weak_from.now weak_to.now) (length weak_from.now) }
{
    let mut a0 = 0;
    let mut b0 = 0;
    for i in 0..weak_from.len() {
        let a = weak_from[i];
        let b = weak_to[i];
        if pair_fault(objects, a0, b0, a, b) {
            return i;
        }
        a0 = a;
        b0 = b;
    }
    weak_from.len()
}
