// The lists of a case: their numbers go into three arenas, one for each width. List k begins in its arena at `cuts[2 * k]` and ends at `cuts[2 * k + 1]`.
use crate::column::part;
use crate::fault::{Fault, Malformed};
use crate::text;
use crate::text::{Item, Mark};
use std::num::TryFromIntError;

// Which arena the numbers of a list go into.
#[derive(Clone, Copy)]
pub enum Width {
    Bytes,
    Halves,
    Words,
}

// How much of each arena is used.
#[derive(Clone, Copy, Default)]
pub struct Used {
    pub bytes: usize,
    pub halves: usize,
    pub words: usize,
}

impl Used {
    pub fn of(self, width: Width) -> usize {
        match width {
            Width::Bytes => self.bytes,
            Width::Halves => self.halves,
            Width::Words => self.words,
        }
    }

    fn up_to(mut self, width: Width, end: usize) -> Used {
        match width {
            Width::Bytes => self.bytes = end,
            Width::Halves => self.halves = end,
            Width::Words => self.words = end,
        }
        self
    }
}

// What reading a list, or all of them, comes to: the place behind, and where the arenas are used up to.
#[derive(Clone, Copy)]
pub struct Listed {
    pub next: usize,
    pub used: Used,
}

impl From<TryFromIntError> for Fault {
    fn from(_e: TryFromIntError) -> Fault {
        Fault::NumberTooLarge
    }
}

// The last number of an item that has one, if it fits in 64 bits. It is the greatest.
fn last(it: Item) -> Option<u64> {
    it.count
        .saturating_sub(1)
        .checked_mul(it.step)?
        .checked_add(it.first)
}

// The numbers of an item go into an arena, from a place on: where they end in it. If one of them does not fit the arena's width, none is written.
fn fill<T: Copy + TryFrom<u64, Error = TryFromIntError>>(
    arena: &mut [T],
    from: usize,
    it: Item,
) -> Result<usize, Fault> {
    if it.count == 0 {
        return Ok(from);
    }
    let _ = T::try_from(last(it).ok_or(Fault::NumberTooLarge)?)?;
    let end = from
        .checked_add(it.count as usize)
        .ok_or(Fault::TooManyNumbers)?;
    let slots = arena.get_mut(from..end).ok_or(Fault::TooManyNumbers)?;
    let mut value = it.first;
    for slot in slots.iter_mut() {
        *slot = T::try_from(value)?;
        value = value.wrapping_add(it.step);
    }
    Ok(end)
}

// An item goes into the arena of its width: where it ends there.
fn put(
    bytes: &mut [u8],
    halves: &mut [u32],
    words: &mut [u64],
    used: Used,
    width: Width,
    it: Item,
) -> Result<usize, Fault> {
    match width {
        Width::Bytes => fill(bytes, used.bytes, it),
        Width::Halves => fill(halves, used.halves, it),
        Width::Words => fill(words, used.words, it),
    }
}

// Where no item can be read: at the end of the text the list is not closed.
fn no_item(text: &[u8], at: usize) -> Malformed {
    let why = if at < text.len() {
        Fault::NoNumber
    } else {
        Fault::ListNotClosed
    };
    Malformed { at, why }
}

// A list from behind its bracket on. Every item has a byte at least, so that there are no more turns than bytes.
fn list(
    text: &[u8],
    from: usize,
    bytes: &mut [u8],
    halves: &mut [u32],
    words: &mut [u64],
    before: Used,
    width: Width,
) -> Result<Listed, Malformed> {
    let mut next = from;
    let mut used = before;
    for _ in 0..text.len() {
        let at = text::seek(text, next, Mark::Item);
        if text::byte(text, at) == b']' {
            next = text::behind(text, at);
            return Ok(Listed { next, used });
        }
        let it = text::item_at(text, at).ok_or(no_item(text, at))?;
        let end = put(bytes, halves, words, used, width, it).map_err(|why| Malformed { at, why })?;
        used = used.up_to(width, end);
        next = it.next;
    }
    Err(no_item(text, text.len()))
}

// The next list, after the remarks before it.
pub fn next_list(
    text: &[u8],
    from: usize,
    bytes: &mut [u8],
    halves: &mut [u32],
    words: &mut [u64],
    used: Used,
    width: Width,
) -> Result<Listed, Malformed> {
    let at = text::seek(text, from, Mark::List);
    if text::byte(text, at) != b'[' {
        return Err(Malformed {
            at,
            why: Fault::NoListYet,
        });
    }
    let from = text::behind(text, at);
    list(text, from, bytes, halves, words, used, width)
}

// Says where list k begins and ends.
pub fn cut(cuts: &mut [usize], k: usize, start: usize, end: usize) {
    if k < cuts.len() / 2 {
        cuts[2 * k] = start;
        cuts[2 * k + 1] = end;
    }
}

// List k of a case, a part of its arena.
pub fn of<'a, T>(arena: &'a [T], cuts: &[usize], k: usize) -> &'a [T] {
    if k < cuts.len() / 2 {
        part(arena, cuts[2 * k], cuts[2 * k + 1])
    } else {
        &arena[..0]
    }
}
