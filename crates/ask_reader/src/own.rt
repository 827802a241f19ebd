// The steps of answering all edges of an object that read none: the room, the answer, the end.
ghost use Rattle.std.specs.Prelude.{◌≡◌};
ghost use Rattle.columns.specs.Columns.{kept};
ghost use Rattle.rules.specs.Types.{object_edges_says};
ghost use Rattle.ask_reader.specs.Own.{own_room, own_says, OwnSettled};

use rules::ListError;

// How many of n edges are written: a column that is too short for all takes none.
pub fn room_for(n: usize, a: usize, b: usize) -> usize
    ensures { result ≡ own_room n a b }
{
    if a < n {
        return 0;
    }
    if b < n {
        return 0;
    }
    n
}

// COLUMNS of an edge that cannot be read, then ROOM, then how many there are.
pub fn judge(n: usize, read: usize, room: usize, object: usize) -> Result<usize, ListError>
    ensures { object_edges_says result ≡ own_says n read room object }
{
    if read < n {
        return Err(ListError::Columns(object));
    }
    if room < n {
        return Err(ListError::Room(23));
    }
    Ok(n)
}

pub fn edges_kept(answer: Result<usize, ListError>) -> usize
    ensures { result ≡ kept 1 (object_edges_says answer) }
{
    answer.unwrap_or(0)
}

// Clears the ends behind the edges that the answer keeps, which is all after a refusal.
pub fn settle(
    answer: Result<usize, ListError>,
    own_targets: &mut [u32],
    own_labels: &mut [u32],
) -> Result<usize, ListError>
    ensures { OwnSettled (object_edges_says answer) (object_edges_says result) own_targets.old own_labels.old own_targets.new own_labels.new }
{
    let end = edges_kept(answer);
    columns::zero(own_targets, end);
    columns::zero(own_labels, end);
    answer
}
