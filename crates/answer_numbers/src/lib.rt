// Answers of the questions as numbers, for a host: how many numbers document 01 gives an answer, those numbers, then zeros. `answer_builds` has the others,
// `answer_replies` answers in one number.
#![tactic(auto, unfolding(crate::specs::Told::told, columns::specs::Columns::padded, columns::specs::Columns::over))]

ghost use Rattle.std.specs.Prelude.{◌≡◌, ℕ, List, [], ◌∷◌};
ghost use Rattle.rules.specs.Types.{answer_says, span_values, found_values, label_values, read_error_says, list_error_says, invert_error_says};
ghost use Rattle.answer_numbers.specs.Told.{told};

use rules::{Entry, Inverse, InvertError, Label, ListError, ReadError, Span};

// Acceptance without a value, and so not the target 0.
const NOTHING: [u64; 4] = [1, 0, 0, 0];

// What an accepted question answers, by its values.
pub trait Values {
    ghost values: { Self → List ℕ };

    fn told(self) -> [u64; 4]
        ensures { result ≡ told 4 (0 ∷ values self) };
}

// What a question refuses, by its number and the place.
pub trait Refused {
    ghost says: { Self → List ℕ };

    fn told(self) -> [u64; 4]
        ensures { result ≡ told 4 (says self) };
}

pub fn numbers<A: Values, E: Refused>(answer: Result<A, E>) -> [u64; 4]
    ensures { result ≡ told 4 (answer_says A.values E.says answer) }
{
    match answer {
        Ok(values) => values.told(),
        Err(refused) => refused.told(),
    }
}

impl Values for Span {
    ghost values = { span_values };

    fn told(self) -> [u64; 4] {
        [3, 0, self.start as u64, self.end as u64]
    }
}

// How many edges there are, were written or were asked for.
impl Values for usize {
    ghost values = { λ n. n ∷ [] };

    fn told(self) -> [u64; 4] {
        [2, 0, self as u64, 0]
    }
}

impl Values for Label {
    ghost values = { λ l. l.0 ∷ [] };

    fn told(self) -> [u64; 4] {
        [2, 0, u64::from(self.0), 0]
    }
}

impl Values for Option<Label> {
    ghost values = { label_values };

    fn told(self) -> [u64; 4] {
        match self {
            Some(l) => l.told(),
            None => NOTHING,
        }
    }
}

// The target of a field or of a referent.
impl Values for Option<u32> {
    ghost values = { found_values };

    fn told(self) -> [u64; 4] {
        match self {
            Some(target) => [2, 0, u64::from(target), 0],
            None => NOTHING,
        }
    }
}

impl Values for Inverse {
    ghost values = { λ i. i.entries ∷ i.long ∷ [] };

    fn told(self) -> [u64; 4] {
        [3, 0, self.entries as u64, self.long as u64]
    }
}

impl Values for Entry {
    ghost values = { λ e. e.source ∷ e.place ∷ [] };

    fn told(self) -> [u64; 4] {
        [3, 0, u64::from(self.source), u64::from(self.place)]
    }
}

impl Refused for ReadError {
    ghost says = { read_error_says };

    fn told(self) -> [u64; 4] {
        match self {
            ReadError::Index(at) => [2, 11, at as u64, 0],
            ReadError::Columns(at) => [2, 12, at as u64, 0],
        }
    }
}

impl Refused for ListError {
    ghost says = { list_error_says };

    fn told(self) -> [u64; 4] {
        match self {
            ListError::Room(at) => [2, 9, at as u64, 0],
            ListError::Index(at) => [2, 11, at as u64, 0],
            ListError::Columns(at) => [2, 12, at as u64, 0],
        }
    }
}

impl Refused for InvertError {
    ghost says = { invert_error_says };

    fn told(self) -> [u64; 4] {
        match self {
            InvertError::Room(at) => [2, 9, at as u64, 0],
            InvertError::Columns(at) => [2, 12, at as u64, 0],
        }
    }
}
