// Runs the cases that a text names and writes what came out: the checks of both routes, of columns handed over, `from_parts`, and slot rows put into columns.
//
// A title in quotes begins a case and is written. A word with a list in brackets behind it names a column or a number, which the list stands for in this case;
// `keep` makes the lists as they stand those that every later case begins with. Any other word is a call that is made with them. What stands before the first
// title is a remark. A text that is malformed is told with the place, and nothing more is run.
#![tactic(auto)]

mod answer;
mod checks;
mod hand;
mod names;
mod slots;

use case_text::arrays::{BYTES, HALVES, NAMED, TEXT};
use case_text::column::part;
use case_text::fault::{Ended, Fault, Malformed};
use case_text::lists::{Used, Width};
use case_text::text::Mark;
use case_text::{arrays, fault, input, lists, text};
use names::{Call, Word};
use std::io;

// Where the lists of a case stand in their arenas.
const CUTS: usize = 100;

// Where the text goes on, and how much of the arenas is used: by the case, and by the lists that are kept.
#[derive(Clone, Copy)]
struct State {
    at: usize,
    used: Used,
    kept: Used,
}

// The case whose title begins at a place begins with the lists that are kept. The title is written as the text has it, on a line of its own or in front of what
// the case's calls write.
fn title(
    rt: &impl Print,
    text: &[u8],
    mut s: State,
    cuts: &mut [usize; CUTS],
    kept: &[usize; CUTS],
) -> Result<State, Ended> {
    let start = text::behind(text, s.at);
    let end = text::seek(text, start, Mark::Title);
    if text.len() <= end {
        let why = Fault::TitleNotClosed;
        return Err(Ended::from(Malformed { at: s.at, why }));
    }
    print::word(rt, b"\n")?;
    print::word(rt, part(text, start, end))?;
    *cuts = *kept;
    s.at = text::behind(text, end);
    s.used = s.kept;
    Ok(s)
}

// List k is the one behind the word that ends at `end`.
fn list(
    text: &[u8],
    end: usize,
    k: usize,
    width: Width,
    mut s: State,
    bytes: &mut [u8],
    halves: &mut [u32],
    words: &mut [u64],
    cuts: &mut [usize],
) -> Result<State, Malformed> {
    let start = s.used.of(width);
    let read = lists::next_list(text, end, bytes, halves, words, s.used, width)?;
    lists::cut(cuts, k, start, read.used.of(width));
    s.at = read.next;
    s.used = read.used;
    Ok(s)
}

fn call(
    rt: &impl Print,
    call: Call,
    bytes: &[u8],
    halves: &[u32],
    words: &[u64],
    cuts: &[usize],
) -> io::Result<()> {
    match call {
        Call::Copied => checks::copied(rt, bytes, halves, words, cuts, false),
        Call::Working => checks::copied(rt, bytes, halves, words, cuts, true),
        Call::Raw => checks::raw(rt, bytes, halves, words, cuts),
        Call::Parts => checks::parts(rt, bytes, halves, words, cuts),
        Call::Hand => hand::lend(rt, bytes, halves, words, cuts),
        Call::Columns => slots::lend(rt, bytes, halves, words, cuts, false),
        Call::Rows => slots::lend(rt, bytes, halves, words, cuts, true),
    }
}

fn word(
    rt: &impl Print,
    text: &[u8],
    mut s: State,
    bytes: &mut [u8],
    halves: &mut [u32],
    words: &mut [u64],
    cuts: &mut [usize; CUTS],
    kept: &mut [usize; CUTS],
) -> Result<State, Ended> {
    let end = names::end_of(text, s.at);
    match names::read_word(part(text, s.at, end)) {
        Some(Word::List(k, width)) => {
            return Ok(list(text, end, k, width, s, bytes, halves, words, cuts)?);
        }
        Some(Word::Call(c)) => call(rt, c, bytes, halves, words, cuts)?,
        Some(Word::Keep) => {
            *kept = *cuts;
            s.kept = s.used;
        }
        None => {
            print::word(rt, b"; no such call")?;
        }
    }
    s.at = end;
    Ok(s)
}

// The word or the title at a place.
fn one(
    rt: &impl Print,
    text: &[u8],
    s: State,
    bytes: &mut [u8],
    halves: &mut [u32],
    words: &mut [u64],
    cuts: &mut [usize; CUTS],
    kept: &mut [usize; CUTS],
) -> Result<State, Ended> {
    if text::byte(text, s.at) == b'"' {
        return title(rt, text, s, cuts, kept);
    }
    word(rt, text, s, bytes, halves, words, cuts, kept)
}

// Every word has a byte at least, so that there are no more turns than bytes.
fn every(
    rt: &impl Print,
    text: &[u8],
    bytes: &mut [u8],
    halves: &mut [u32],
    words: &mut [u64],
    cuts: &mut [usize; CUTS],
    kept: &mut [usize; CUTS],
) -> Result<(), Ended> {
    let mut s = State {
        at: text::seek(text, 0, Mark::Title),
        used: Used::default(),
        kept: Used::default(),
    };
    for _ in 0..text.len() {
        s.at = names::next(text, s.at);
        if text.len() <= s.at {
            break;
        }
        s = one(rt, text, s, bytes, halves, words, cuts, kept)?;
    }
    Ok(())
}

// A text that fills its room may go on behind it.
fn run(rt: &impl Print, text: &[u8]) -> io::Result<()> {
    let mut bytes: [u8; BYTES] = arrays::filled(0);
    let mut halves: [u32; HALVES] = arrays::filled(0);
    let mut words: [u64; NAMED] = arrays::filled(9);
    let mut cuts: [usize; CUTS] = [0; CUTS];
    let mut kept: [usize; CUTS] = [0; CUTS];
    if TEXT <= text.len() {
        let at = text.len();
        let why = Fault::TextTooLong;
        return Malformed { at, why }.tell(rt);
    }
    let done = every(
        rt,
        text,
        &mut bytes,
        &mut halves,
        &mut words,
        &mut cuts,
        &mut kept,
    );
    fault::tell(rt, done)?;
    print::word(rt, b"\n")?;
    Ok(())
}

fn main(rt: HostRuntime) -> io::Result<()> {
    let mut room: [u8; TEXT] = arrays::filled(0);
    let n = input::read_full(&rt, &mut room)?;
    run(&rt, &room[..n])
}
