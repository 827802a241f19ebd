// The answer so far, and what a stage makes of it.
ghost use Rattle.std.specs.Prelude.{◌≡◌, [], ◌∷◌, ◌+◌, ◌≤◌, Err, ltb};
ghost use Rattle.columns.specs.Lists.{◌!◌, any_of};
ghost use Rattle.store.specs.Blocked.{coded_says};
ghost use Rattle.rules.specs.Types.{refusal_says, built_says};
ghost use Rattle.code_stages.specs.Stages.{label_room, Where};
ghost use Rattle.code_stages.specs.Settling.{used_to};

use rules::{Counts, Refusal};
use store::OffsetsError;

// The refusal to code offsets, as that of a build.
pub(crate) fn uncoded(e: OffsetsError) -> Refusal
    ensures { refusal_says result ≡ coded_says (Err e) }
{
    match e {
        OffsetsError::Limit => Refusal::Limit,
        OffsetsError::Parts(position) => Refusal::Parts {
            column: 1,
            position,
        },
        OffsetsError::Room(k) => Refusal::Room(k),
    }
}

// Whether a pair of columns is shorter than its need.
pub(crate) fn is_short(need: usize, a: usize, b: usize) -> bool
    ensures { result ≡ any_of (ltb a need ∷ ltb b need ∷ []) }
{
    a < need || b < need
}

// Buffers 7, 8 and the one after them, of which one is short.
pub(crate) fn first_short(
    escapes: usize,
    edges: usize,
    escape_at: usize,
    escape_label: usize,
    edge_codes: usize,
    last: usize,
) -> Refusal
    ensures { refusal_says result ≡ label_room escapes edges escape_at escape_label edge_codes (9 ∷ last ∷ []) }
{
    if is_short(escapes, escape_at, escape_label) {
        return Refusal::Room(7);
    }
    if edge_codes < edges {
        return Refusal::Room(8);
    }
    Refusal::Room(last)
}

// The used lengths of an acceptance; 0 where it is refused.
pub(crate) fn fields_of(b: Result<Counts, Refusal>) -> usize
    ensures { result ≡ used_to (built_says b) (built_says b ! 5) }
{
    b.map_or(0, |c| c.fields)
}

pub(crate) fn escapes_of(b: Result<Counts, Refusal>) -> usize
    ensures { result ≡ used_to (built_says b) (built_says b ! 6) }
{
    b.map_or(0, |c| c.escapes)
}

pub(crate) fn used_to(b: Result<Counts, Refusal>, n: usize) -> usize
    ensures { result ≡ used_to (built_says b) n }
{
    if b.is_ok() { n } else { 0 }
}

// The code table's used length.
pub(crate) fn table_of(b: Result<Counts, Refusal>, names: usize) -> usize
    requires { Where (built_says b) (names ≤ 16777216) }
    ensures { result ≡ used_to (built_says b) (names + 2) }
{
    if b.is_ok() { names + 2 } else { 0 }
}
