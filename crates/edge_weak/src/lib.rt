// What is weak: whether a slot is kept; and the weak pairs of one object, a run of the two weak columns, "sorted by object, then target, repeats kept".
// `edge_append` appends with these.
#![tactic(auto)]

ghost use Rattle.std.specs.Prelude.{◌≡◌, ◌≤◌, length};
ghost use Rattle.edge_weak.specs.Weak.{kept_of, PairsSettled};

// "A slot is kept if it isn't weak or its class's kind is kept."
#[tactic(auto, unfolding(crate::specs::Weak::kept_of))]
pub fn is_kept(weak: u8, keeps: bool) -> bool
    ensures { result ≡ kept_of weak keeps }
{
    weak != 1 || keeps
}

// The run from one place up to another is the object's.
pub fn close_run(weak_from: &mut [u32], weak_to: &mut [u32], object: u32, from: usize, to: usize)
    requires { (from ≤ to) × (to ≤ length weak_from.old) × (to ≤ length weak_to.old) }
    ensures { PairsSettled object from to weak_from.old weak_to.old weak_from.new weak_to.new }
{
    weak_from[from..to].fill(object);
    sort::sort_run(weak_to, from, to);
}
