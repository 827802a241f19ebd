// Answers of the builds and of filling rows as numbers, told as those of the questions (`answer_numbers`).
#![tactic(auto, unfolding(answer_numbers::specs::Told::told, columns::specs::Columns::padded, columns::specs::Columns::over))]

ghost use Rattle.std.specs.Prelude.{◌≡◌};
ghost use Rattle.rules.specs.Types.{refusal_says, built_says};
ghost use Rattle.slot_rows.specs.Rows.{filled_says};
ghost use Rattle.answer_numbers.specs.Told.{told};

use rules::{Counts, Refusal};
use slot_rows::FillError;

fn refusal(f: Refusal) -> [u64; 9]
    ensures { result ≡ told 9 (refusal_says f) }
{
    match f {
        Refusal::Lengths => [2, 1, 0, 0, 0, 0, 0, 0, 0],
        Refusal::Limit => [2, 2, 0, 0, 0, 0, 0, 0, 0],
        Refusal::Object(at) => [2, 3, at as u64, 0, 0, 0, 0, 0, 0],
        Refusal::Class(at) => [2, 4, at as u64, 0, 0, 0, 0, 0, 0],
        Refusal::Copied(at) => [2, 5, at as u64, 0, 0, 0, 0, 0, 0],
        Refusal::Span(at) => [2, 6, at as u64, 0, 0, 0, 0, 0, 0],
        Refusal::Root(at) => [2, 7, at as u64, 0, 0, 0, 0, 0, 0],
        Refusal::Places => [2, 8, 0, 0, 0, 0, 0, 0, 0],
        Refusal::Room(at) => [2, 9, at as u64, 0, 0, 0, 0, 0, 0],
        Refusal::Parts { column, position } => [
            3,
            10,
            column as u64,
            position as u64,
            0,
            0,
            0,
            0,
            0,
        ],
        Refusal::Index(at) => [2, 11, at as u64, 0, 0, 0, 0, 0, 0],
        Refusal::Columns(at) => [2, 12, at as u64, 0, 0, 0, 0, 0, 0],
    }
}

// What a build says: the used lengths and the dangling count, or the refusal.
pub fn built(b: Result<Counts, Refusal>) -> [u64; 9]
    ensures { result ≡ told 9 (built_says b) }
{
    match b {
        Ok(c) => [
            8,
            0,
            c.edges as u64,
            c.weak as u64,
            c.roots as u64,
            c.long as u64,
            c.fields as u64,
            c.escapes as u64,
            c.dangling,
        ],
        Err(f) => refusal(f),
    }
}

pub fn filled(f: Result<usize, FillError>) -> [u64; 4]
    ensures { result ≡ told 4 (filled_says f) }
{
    match f {
        Ok(rows) => [2, 0, rows as u64, 0],
        Err(FillError::Room(buffer)) => [2, 9, buffer as u64, 0],
    }
}
