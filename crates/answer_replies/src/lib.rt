// Answers in one number, for a host that reads them from a register.
#![tactic(auto, unfolding(crate::specs::Reply::reply_of, columns::specs::Columns::accepts))]

ghost use Rattle.std.specs.Prelude.{◌≡◌, [], ◌∷◌};
ghost use Rattle.rules.specs.Types.{span_says, label_of_says, field_says};
ghost use Rattle.answer_replies.specs.Reply.{span_number, reply_of};

use rules::{Label, ReadError, Span};

pub fn span_number(a: Result<Span, ReadError>) -> u64
    ensures { result ≡ span_number (span_says a) }
{
    match a {
        Ok(at) => packed(at.start, at.end),
        Err(_) => 0,
    }
}

fn packed(start: usize, end: usize) -> u64
    ensures { result ≡ span_number (0 ∷ start ∷ end ∷ []) }
{
    if 4294967296 <= start {
        return 0;
    }
    if 4294967295 <= end {
        return 0;
    }
    start as u64 * 4294967296 + end as u64 + 1
}

// The target of a field or of a referent.
pub fn target_reply(a: Result<Option<u32>, ReadError>) -> u64
    ensures { result ≡ reply_of (field_says a) }
{
    match a {
        Ok(Some(target)) => u64::from(target) + 2,
        Ok(None) => 1,
        Err(_) => 0,
    }
}

pub fn label_reply(a: Result<Option<Label>, ReadError>) -> u64
    ensures { result ≡ reply_of (label_of_says a) }
{
    target_reply(match a {
        Ok(found) => Ok(found.map(|l| l.0)),
        Err(e) => Err(e),
    })
}
