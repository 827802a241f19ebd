// What is written of a call: an answer for each object, or the refusal.
use crate::words::refusal;
use case_text::form;
use case_text::zero::zero;
use rules::ListError;
use std::io;

// Nothing found is target 0 and mark 0. Other marks are no answer.
fn answer(rt: &impl Print, target: u32, mark: u8) -> io::Result<()> {
    match (mark, target) {
        (1, _) => form::fill(rt, b" #", &[u64::from(target)]),
        (0, 0) => form::fill(rt, b" nothing", &[]),
        _ => form::fill(rt, b" wrong", &[]),
    }
}

fn answers(rt: &impl Print, own_targets: &[u32], found: &[u8]) -> io::Result<()> {
    for (target, mark) in own_targets.iter().zip(found) {
        answer(rt, *target, *mark)?;
    }
    Ok(())
}

// The answers, or the refusal and a mark where it did not leave both columns zero.
pub(crate) fn said(
    rt: &impl Print,
    says: Result<usize, ListError>,
    own_targets: &[u32],
    found: &[u8],
) -> io::Result<()> {
    match says {
        Ok(_) => answers(rt, own_targets, found),
        Err(e) => refusal(rt, e, zero(own_targets) && zero(found)),
    }
}

pub(crate) fn left(rt: &impl Print, own_targets: &[u32], found: &[u8]) -> io::Result<()> {
    if zero(own_targets) && zero(found) {
        print::word(rt, b" left zero")?;
    } else {
        print::word(rt, b" left NOT zero")?;
    }
    Ok(())
}
