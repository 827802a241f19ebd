// The limit of PLACES, and marks kept or cleared. `check_whole` passes these on.
#![tactic(auto)]

ghost use Rattle.std.specs.Prelude.{◌≡◌, cond, length};
ghost use Rattle.columns.specs.Columns.{zeros};
ghost use Rattle.rules.specs.Types.{checked_says};
ghost use Rattle.check_limit.specs.Limit.{limit_says, allowed};

use rules::Refusal;

// So many places, if they are not too many.
#[tactic(auto, unfolding(crate::specs::Limit::limit_says))]
pub fn limited(places: u64) -> Result<usize, Refusal>
    ensures { checked_says result ≡ limit_says places places }
{
    if 268435456 < places {
        return Err(Refusal::Places);
    }
    Ok(places as usize)
}

// So much of a room that what fits in it is not too much.
#[tactic(auto, unfolding(crate::specs::Limit::allowed))]
pub fn least_room(room: usize) -> usize
    ensures { result ≡ allowed room }
{
    room.min(268435456)
}

// Marks are kept or cleared.
#[tactic(auto, using(columns::proofs::Written::zeroed))]
pub fn settle(keep: bool, working: &mut [u64])
    ensures { working.new ≡ cond keep working.old (zeros (length working.old)) }
{
    if !keep {
        columns::zero(working, 0);
    }
}

// Nobody goes on with the marks: all work space is zero in the end.
pub fn clear(working: &mut [u64])
    ensures { working.new ≡ zeros (length working.old) }
{
    settle(false, working);
}
