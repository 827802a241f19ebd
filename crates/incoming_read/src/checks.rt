// The tests of single columns.
ghost use Rattle.std.specs.Prelude.{◌≡◌, ◌&&◌, ◌||◌, ◌-◌, min, leb};
ghost use Rattle.rules.specs.Questions.{rises};
ghost use Rattle.incoming_read.specs.Steps.{is_odd, plain_only, fields_only};

use columns::Number;
use rules::Label;

// Each number is above the one before it.
pub(crate) fn rises<T: Number>(xs: &[T]) -> bool
    ensures { result ≡ rises (T.numbers xs.now) }
{
    for i in 1..xs.len() {
        if xs[i].wide() <= xs[i - 1].wide() {
            return false;
        }
    }
    true
}

// Where a span may end: within codes and targets and document 01's limit.
pub(crate) fn span_limit(codes: usize, targets: usize) -> u64
    ensures { result ≡ min (min codes targets) 268435456 }
{
    codes.min(targets).min(268435456) as u64
}

// Calls in the place of branches, so that a pass has one way on: whether all spans so far are narrow; whether one of the codes so far is not plain. What was so
// far is looked at last: so a pass can take many codes at once.
pub(crate) fn still_narrow(narrow: bool, edges: u64) -> bool
    ensures { result ≡ narrow && leb edges 65536 }
{
    if 65536 < edges {
        return false;
    }
    narrow
}

#[tactic(auto, unfolding(crate::specs::Steps::is_odd))]
fn still_odd(odd: bool, code: u16, limit: u16) -> bool
    ensures { result ≡ odd || is_odd limit code }
{
    if 32768 <= code {
        if 65535 <= code {
            return true;
        }
        return odd;
    }
    if limit <= code {
        return true;
    }
    odd
}

// The places of fields that a code can name: of so many fields, those below the escape.
pub(crate) fn field_limit(fields: usize) -> u16
    ensures { result ≡ min fields 32767 }
{
    fields.min(32767) as u16
}

// All codes are looked at, without an early exit.
pub(crate) fn all_plain(codes: &[u16], limit: u16) -> bool
    ensures { result ≡ plain_only limit codes.now }
{
    let mut odd = false;
    for code in codes {
        odd = still_odd(odd, *code, limit);
    }
    !odd
}

// No field has an element's label.
pub(crate) fn all_fields(fields: &[u32]) -> bool
    ensures { result ≡ fields_only fields.now }
{
    fields.iter().all(|field| *field < Label::ARRAY_ELEMENT)
}
