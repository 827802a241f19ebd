// The need of buffer 2, of the input alone: the weak pairs. They come from slots alone, since elements, statics and loaders are kept; and of the slots
// only those are looked up that are weak and whose class's kind is not kept.
#![tactic(auto)]

pub mod copied;
pub mod most;
pub mod raw;

ghost use Rattle.std.specs.Prelude.{◌≡◌};
ghost use Rattle.columns.specs.Ranks.{Rises};
ghost use Rattle.need_weak.specs.Pairs.{pair_to};

// 1 for an id that an object has. "Id 0 gives nothing."
fn pair_to(ids: &[u64], id: u64, guess: usize) -> usize
    requires { Rises ids.now }
    ensures { result ≡ pair_to ids.now id }
{
    if id == 0 {
        return 0;
    }
    usize::from(lookup::find_sorted(ids, id, guess).is_ok())
}
