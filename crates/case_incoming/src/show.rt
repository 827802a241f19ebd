// What is written of the columns: each whole, or the refusal and whether it left all of them zero.
use case_text::zero::zero;
use case_text::{column, form};
use incoming::Incoming;
use rules::{Inverse, InvertError};
use std::io;

const NAMES: [&str; 7] = [
    "sources",
    "places",
    "in_bases",
    "in_short",
    "in_long_at",
    "in_long_value",
    "working",
];

// Document 01's number of a refusal, and its place.
fn refused(rt: &impl Print, answer: Result<Inverse, InvertError>) -> io::Result<()> {
    let says = answer_numbers::numbers(answer);
    form::fill(rt, b" refused: # at #", &[says[1], says[2]])
}

// The columns whole. They have just the room that they need: anything but an acceptance is told.
pub(crate) fn columns(
    rt: &impl Print,
    answer: Result<Inverse, InvertError>,
    incoming: Incoming<'_>,
    working: &[u64],
) -> io::Result<()> {
    if let Ok(i) = answer {
        let numbers = [i.entries as u64, i.long as u64];
        form::fill(rt, b"  incoming: entries #, long #\n", &numbers)?;
    } else {
        print::word(rt, b"  incoming")?;
        refused(rt, answer)?;
        print::word(rt, b"\n")?;
    }
    column::of(rt, "  sources", incoming.sources)?;
    column::of(rt, "  places", incoming.places)?;
    column::of(rt, "  in_bases", incoming.offsets.bases)?;
    column::of(rt, "  in_short", incoming.offsets.short)?;
    column::of(rt, "  in_long_at", incoming.offsets.long_at)?;
    column::of(rt, "  in_long_value", incoming.offsets.long_value)?;
    column::of(rt, "  working", working)
}

fn is_zero(incoming: Incoming<'_>) -> bool {
    zero(incoming.sources)
        && zero(incoming.places)
        && zero(incoming.offsets.bases)
        && zero(incoming.offsets.short)
        && zero(incoming.offsets.long_at)
        && zero(incoming.offsets.long_value)
}

// Column k is one number short: the refusal, and whether everything lent is zero after it.
pub(crate) fn refusal(
    rt: &impl Print,
    k: usize,
    answer: Result<Inverse, InvertError>,
    incoming: Incoming<'_>,
    working: &[u64],
) -> io::Result<()> {
    if let Some(name) = NAMES.get(k) {
        print::word(rt, b"  ")?;
        print::word(rt, name.as_bytes())?;
        print::word(rt, b" short")?;
    }
    refused(rt, answer)?;
    if is_zero(incoming) && zero(working) {
        print::word(rt, b" left zero\n")?;
    } else {
        print::word(rt, b" left NOT zero\n")?;
    }
    Ok(())
}
