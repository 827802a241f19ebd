// What is written of an answer: the counts, or the refusal.
use case_text::form;
use case_text::refusal::Refused;
use rules::{Counts, Refusal};
use std::io;

pub(crate) fn checked(
    rt: &impl Print,
    call: &str,
    answer: Result<usize, Refusal>,
) -> io::Result<()> {
    print::word(rt, call.as_bytes())?;
    match answer {
        Ok(n) => form::fill(rt, b"accepted with #", &[n as u64]),
        Err(r) => Refused(r).tell(rt),
    }
}

fn counts(rt: &impl Print, c: Counts) -> io::Result<()> {
    form::fill(
        rt,
        b"; done: edges #, weak #, roots #, long #, fields #, escapes #, dangling #\n",
        &[
            c.edges as u64,
            c.weak as u64,
            c.roots as u64,
            c.long as u64,
            c.fields as u64,
            c.escapes as u64,
            c.dangling,
        ],
    )
}

// What a build says.
pub(crate) fn built(rt: &impl Print, answer: Result<Counts, Refusal>) -> io::Result<()> {
    match answer {
        Ok(c) => counts(rt, c),
        Err(r) => Refused(r).line(rt, "; refused: "),
    }
}
