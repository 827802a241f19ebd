// Builds the cases that a text names, by either route, in lent columns of exactly the rooms that each case names, and writes the whole of what came out.
//
// A case is a title in quotes and lists in brackets: six numbers (route 0 copied or 1 raw, keep soft, keep weak, names, base, id size; a policy of 2 and 2 is every one), the input columns
// in the order of the build's parameters, the roots, one or more sets of seventeen rooms, and three lists of questions. `n*x` stands for n times x, `n*x+d` for x, x + d, .. ,
// and words outside brackets are remarks. The columns hold nines before a build. Of a build that is done every column is written whole, with what is behind the
// used part, then each object's span, edges and weak targets, the answers, and the incoming side; of a refusal its number and place, and whether all that was lent is zero.
// A text that is malformed is told with the place, and nothing more is built.
#![tactic(auto)]

mod rooms;
mod routes;

use case_graph::{case, lists};
use case_text::arrays::{BYTES, HALVES, TEXT};
use case_text::column::part;
use case_text::fault::{Ended, Fault, Malformed};
use case_text::text::Mark;
use case_text::{arrays, fault, input, text};
use std::io;

// A case whose lists are read is built, unless they are none of a case. Where the next case begins.
fn built(
    rt: &impl Print,
    text: &[u8],
    behind: usize,
    bytes: &[u8],
    halves: &[u32],
    words: &[u64],
    cuts: &[usize],
) -> Result<usize, Ended> {
    let at = text::seek(text, behind, Mark::List);
    if text::byte(text, at) == b'[' {
        let why = Fault::ListTooMany;
        return Err(Ended::from(Malformed { at, why }));
    }
    case::soundness(halves, words, cuts).map_err(|why| Malformed { at: behind, why })?;
    let n = case::numbers_of(words, cuts);
    rooms::every(rt, bytes, halves, words, cuts, n)?;
    Ok(at)
}

// The case whose title begins at a place, and where the next one begins; the end of the text where there is none.
fn one(
    rt: &impl Print,
    text: &[u8],
    at: usize,
    bytes: &mut [u8],
    halves: &mut [u32],
    words: &mut [u64],
    cuts: &mut [usize],
) -> Result<usize, Ended> {
    let start = text::behind(text, at);
    let end = text::seek(text, start, Mark::Title);
    if text.len() <= end {
        let why = Fault::TitleNotClosed;
        return Err(Ended::from(Malformed { at, why }));
    }
    // The title as the text has it.
    print::word(rt, part(text, start, end))?;
    print::word(rt, b"\n")?;
    let read = lists::all(text, text::behind(text, end), bytes, halves, words, cuts)?;
    built(rt, text, read.next, bytes, halves, words, cuts)
}

// Every case has a byte at least, so that there are no more turns than bytes.
fn every(
    rt: &impl Print,
    text: &[u8],
    bytes: &mut [u8],
    halves: &mut [u32],
    words: &mut [u64],
    cuts: &mut [usize],
) -> Result<(), Ended> {
    let mut at = text::seek(text, 0, Mark::Title);
    for _ in 0..text.len() {
        if text.len() <= at {
            break;
        }
        at = one(rt, text, at, bytes, halves, words, cuts)?;
    }
    Ok(())
}

// A text that fills its room may go on behind it.
fn replay(rt: &impl Print, text: &[u8]) -> Result<(), Ended> {
    let mut bytes: [u8; BYTES] = arrays::filled(0);
    let mut halves: [u32; HALVES] = arrays::filled(0);
    let mut words: [u64; 10000] = [0; 10000];
    let mut cuts: [usize; 56] = [0; 56];
    if TEXT <= text.len() {
        let at = text.len();
        let why = Fault::TextTooLong;
        return Err(Ended::from(Malformed { at, why }));
    }
    every(rt, text, &mut bytes, &mut halves, &mut words, &mut cuts)
}

fn main(rt: HostRuntime) -> io::Result<()> {
    let mut room: [u8; TEXT] = arrays::filled(0);
    let n = input::read_full(&rt, &mut room)?;
    fault::tell(&rt, replay(&rt, &room[..n]))
}
