// The steps of asking a list that read no object: whether there is room, one row, a refusal with its position, the end. `ask_each` asks a list by these.
#![tactic(auto)]

ghost use Rattle.std.specs.Prelude.{◌≡◌, ◌<◌, length};
ghost use Rattle.columns.specs.Columns.{kept};
ghost use Rattle.rules.specs.Types.{field_says, each_field_says};
ghost use Rattle.ask_each_rows.specs.Rows.{lacking, Row, at_position, EachSettled};

use rules::{ListError, ReadError};

// Whether a column, of so many targets or of so many marks, is shorter than the list.
pub fn lacks_room(asked: usize, targets: usize, marks: usize) -> bool
    ensures { result ≡ lacking asked targets marks }
{
    if targets < asked {
        return true;
    }
    if marks < asked {
        return true;
    }
    false
}

// Writes the row of an answer: its target and the mark 1, or 0 and 0 where nothing is found. A refusal writes nothing, and is told.
pub fn row(
    answer: Result<Option<u32>, ReadError>,
    at: usize,
    own_targets: &mut [u32],
    found: &mut [u8],
) -> bool
    requires { (at < length own_targets.old) × (at < length found.old) }
    ensures { Row (field_says answer) at own_targets.old found.old result own_targets.new found.new }
{
    match answer {
        Ok(Some(t)) => {
            own_targets[at] = t;
            found[at] = 1;
            true
        }
        Ok(None) => {
            own_targets[at] = 0;
            found[at] = 0;
            true
        }
        Err(_) => false,
    }
}

// The refusal of an answer, with the position in the list in place of the object.
pub fn refusal(answer: Result<Option<u32>, ReadError>, at: usize) -> Result<usize, ListError>
    ensures { each_field_says result ≡ at_position (field_says answer) at }
{
    match answer {
        Ok(_) => Ok(at),
        Err(ReadError::Index(_object)) => Err(ListError::Index(at)),
        Err(ReadError::Columns(_object)) => Err(ListError::Columns(at)),
    }
}

fn each_kept(answer: Result<usize, ListError>) -> usize
    ensures { result ≡ kept 1 (each_field_says answer) }
{
    answer.unwrap_or(0)
}

// Clears the ends behind the answers that are kept, which is all after a refusal.
pub fn settle(
    answer: Result<usize, ListError>,
    own_targets: &mut [u32],
    found: &mut [u8],
) -> Result<usize, ListError>
    ensures { EachSettled (each_field_says answer) (each_field_says result) own_targets.old found.old own_targets.new found.new }
{
    let end = each_kept(answer);
    columns::zero(own_targets, end);
    columns::zero(found, end);
    answer
}
