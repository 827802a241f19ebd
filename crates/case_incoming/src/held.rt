// Who holds each object: how many edges go to it, and the first and the last of them. Behind the last object the questions answer INDEX.
use case_text::form;
use incoming::Incoming;
use rules::{Entry, ReadError};
use std::io;

fn refused(rt: &impl Print, e: ReadError) -> io::Result<()> {
    match e {
        ReadError::Index(at) => form::fill(rt, b" index #", &[at as u64]),
        ReadError::Columns(at) => form::fill(rt, b" columns #", &[at as u64]),
    }
}

// An entry is an object that holds, and the place of its edge.
fn entry(rt: &impl Print, found: Result<Entry, ReadError>) -> io::Result<()> {
    match found {
        Ok(e) => form::fill(rt, b" # at #", &[u64::from(e.source), u64::from(e.place)]),
        Err(e) => refused(rt, e),
    }
}

// How many edges go to an object. Of a refusal an entry is asked for, too, to see what is said of that.
fn count(rt: &impl Print, degree: Result<usize, ReadError>) -> io::Result<usize> {
    match degree {
        Ok(n) => {
            form::fill(rt, b" #", &[n as u64])?;
            Ok(n)
        }
        Err(e) => {
            refused(rt, e)?;
            Ok(1)
        }
    }
}

// A single entry is written once.
fn first_and_last(
    rt: &impl Print,
    incoming: Incoming<'_>,
    object: usize,
    count: usize,
) -> io::Result<()> {
    if count == 0 {
        return Ok(());
    }
    print::word(rt, b" first")?;
    entry(rt, incoming.entry_at(object, 0))?;
    if count == 1 {
        return Ok(());
    }
    print::word(rt, b" last")?;
    entry(rt, incoming.entry_at(object, count - 1))
}

// There is an offset more than objects.
pub(crate) fn objects(rt: &impl Print, incoming: Incoming<'_>) -> io::Result<()> {
    for o in 0..incoming.offsets.short.len() {
        form::fill(rt, b"  held #:", &[o as u64])?;
        let n = count(rt, incoming.in_degree(o))?;
        first_and_last(rt, incoming, o, n)?;
        print::word(rt, b"\n")?;
    }
    Ok(())
}
