// The two ends of inverting: what can be refused before an entry is laid, and what is cleared behind the answer. `incoming_stages` passes these on.
#![tactic(auto)]

ghost use Rattle.std.specs.Prelude.{◌≡◌};
ghost use Rattle.columns.specs.Columns.{kept};
ghost use Rattle.rules.specs.Types.{inverted_says};
ghost use Rattle.incoming_room.specs.Room.{early_says, lent_rooms, Settled};

use rules::{Inverse, InvertError};

// COLUMNS, ROOM 10, and ROOM 11 but for the long rows, which are not known yet.
#[tactic(auto, unfolding(crate::specs::Room::early_says, columns::specs::Lists::any_of))]
pub fn early(
    bad: usize,
    objects: usize,
    entries: usize,
    sources: usize,
    places: usize,
    bases: usize,
    short: usize,
    working: usize,
) -> Result<Inverse, InvertError>
    ensures { inverted_says result ≡ early_says bad objects entries (lent_rooms sources places bases short working) }
{
    if bad < objects {
        return Err(InvertError::Columns(bad));
    }
    if sources < entries {
        return Err(InvertError::Room(10));
    }
    if places < entries {
        return Err(InvertError::Room(10));
    }
    if bases < objects / 256 + 1 {
        return Err(InvertError::Room(11));
    }
    if short <= objects {
        return Err(InvertError::Room(11));
    }
    if working <= objects {
        return Err(InvertError::Room(11));
    }
    Ok(Inverse { entries, long: 0 })
}

#[tactic(auto, unfolding(columns::specs::Columns::kept, columns::specs::Columns::accepts))]
pub fn entries_kept(answer: Result<Inverse, InvertError>) -> usize
    ensures { result ≡ kept 1 (inverted_says answer) }
{
    answer.map_or(0, |inverse| inverse.entries)
}

// Clears the ends behind the entries that the answer keeps, which is all after a refusal, and the work space.
#[tactic(auto, using(columns::proofs::Written::zeroed))]
pub fn settle(
    answer: Result<Inverse, InvertError>,
    sources: &mut [u32],
    places: &mut [u32],
    working: &mut [u64],
) -> Result<Inverse, InvertError>
    ensures { Settled (inverted_says answer) (inverted_says result) sources.old places.old working.old sources.new places.new working.new }
{
    let end = entries_kept(answer);
    columns::zero(sources, end);
    columns::zero(places, end);
    columns::zero(working, 0);
    answer
}
