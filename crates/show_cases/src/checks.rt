// The checks, asked with the lists of a case.
use crate::{answer, names};
use case_text::arrays::NAMED;
use case_text::column::used;
use case_text::lists::of;
use case_text::{arrays, column};
use rules::{ReferencePolicy, Refusal};
use std::io;

fn number(xs: &[u64], k: usize) -> u64 {
    xs.get(k).copied().unwrap_or(0)
}

// The first number of a list; 0 where it has none.
pub(crate) fn first(words: &[u64], cuts: &[usize], k: usize) -> u64 {
    number(of(words, cuts, k), 0)
}

fn policy(words: &[u64], cuts: &[usize]) -> ReferencePolicy {
    let kept = of(words, cuts, names::POLICY);
    ReferencePolicy {
        soft: number(kept, 0) == 1,
        weak: number(kept, 1) == 1,
    }
}

fn check_copied(
    bytes: &[u8],
    halves: &[u32],
    words: &[u64],
    cuts: &[usize],
    working: &mut [u64],
) -> Result<usize, Refusal> {
    check_input::check_copied(
        of(words, cuts, names::IDS),
        of(bytes, cuts, names::KINDS),
        of(halves, cuts, names::CLASSES),
        of(halves, cuts, names::LENGTHS),
        of(words, cuts, names::CLASS_IDS),
        of(words, cuts, names::LOADERS),
        of(bytes, cuts, names::DUMPED),
        of(bytes, cuts, names::CLASS_KINDS),
        of(halves, cuts, names::SLOT_STARTS),
        of(halves, cuts, names::SLOT_ENDS),
        of(halves, cuts, names::STATIC_STARTS),
        of(halves, cuts, names::STATIC_ENDS),
        of(halves, cuts, names::SLOT_OFFSETS),
        of(halves, cuts, names::SLOT_LABELS),
        of(bytes, cuts, names::SLOT_WEAK),
        of(halves, cuts, names::STATIC_NAMES),
        of(bytes, cuts, names::STATIC_TYPES),
        of(words, cuts, names::STATIC_VALUES),
        first(words, cuts, names::NAMES) as usize,
        of(halves, cuts, names::CODES),
        of(words, cuts, names::ESCAPE_PLACES),
        of(words, cuts, names::ESCAPE_IDS),
        first(words, cuts, names::BASE),
        of(halves, cuts, names::STARTS),
        of(halves, cuts, names::ROOTS),
        policy(words, cuts),
        working,
    )
}

fn check_raw(
    bytes: &[u8],
    halves: &[u32],
    words: &[u64],
    cuts: &[usize],
    working: &mut [u64],
) -> Result<usize, Refusal> {
    check_input::check_raw(
        of(words, cuts, names::IDS),
        of(bytes, cuts, names::KINDS),
        of(halves, cuts, names::CLASSES),
        of(halves, cuts, names::LENGTHS),
        of(words, cuts, names::CLASS_IDS),
        of(words, cuts, names::LOADERS),
        of(bytes, cuts, names::DUMPED),
        of(bytes, cuts, names::CLASS_KINDS),
        of(halves, cuts, names::SLOT_STARTS),
        of(halves, cuts, names::SLOT_ENDS),
        of(halves, cuts, names::STATIC_STARTS),
        of(halves, cuts, names::STATIC_ENDS),
        of(halves, cuts, names::SLOT_OFFSETS),
        of(halves, cuts, names::SLOT_LABELS),
        of(bytes, cuts, names::SLOT_WEAK),
        of(halves, cuts, names::STATIC_NAMES),
        of(bytes, cuts, names::STATIC_TYPES),
        of(words, cuts, names::STATIC_VALUES),
        first(words, cuts, names::NAMES) as usize,
        of(bytes, cuts, names::BYTES),
        first(words, cuts, names::SIZE) as usize,
        of(words, cuts, names::BODY_STARTS),
        of(halves, cuts, names::BODIES),
        of(halves, cuts, names::ROOTS),
        policy(words, cuts),
        working,
    )
}

// By the copied route, in a working column that held nines; on demand with what is left in it.
pub(crate) fn copied(
    rt: &impl Print,
    bytes: &[u8],
    halves: &[u32],
    words: &[u64],
    cuts: &[usize],
    shown: bool,
) -> io::Result<()> {
    let mut working: [u64; NAMED] = arrays::filled(9);
    let c = check_copied(bytes, halves, words, cuts, &mut working);
    answer::checked(rt, "; copied: ", c)?;
    if shown {
        // So many entries of the working column are used, as far as it goes.
        let n = of(words, cuts, names::IDS).len().saturating_add(1);
        column::of(rt, ", working", used(&working, n))?;
    }
    Ok(())
}

pub(crate) fn raw(
    rt: &impl Print,
    bytes: &[u8],
    halves: &[u32],
    words: &[u64],
    cuts: &[usize],
) -> io::Result<()> {
    let mut working: [u64; NAMED] = arrays::filled(9);
    let c = check_raw(bytes, halves, words, cuts, &mut working);
    answer::checked(rt, "; raw: ", c)
}

// The checks of `from_parts`.
pub(crate) fn parts(
    rt: &impl Print,
    bytes: &[u8],
    halves: &[u32],
    words: &[u64],
    cuts: &[usize],
) -> io::Result<()> {
    let c = check_parts::check_parts(
        of(words, cuts, names::CLASS_IDS),
        of(words, cuts, names::LOADERS),
        of(bytes, cuts, names::DUMPED),
        of(bytes, cuts, names::CLASS_KINDS),
        of(halves, cuts, names::SLOT_STARTS),
        of(halves, cuts, names::SLOT_ENDS),
        of(halves, cuts, names::STATIC_STARTS),
        of(halves, cuts, names::STATIC_ENDS),
        of(halves, cuts, names::SLOT_OFFSETS),
        of(halves, cuts, names::SLOT_LABELS),
        of(bytes, cuts, names::SLOT_WEAK),
        of(halves, cuts, names::STATIC_NAMES),
        of(bytes, cuts, names::STATIC_TYPES),
        of(words, cuts, names::STATIC_VALUES),
        first(words, cuts, names::NAMES) as usize,
        of(words, cuts, names::OFFSETS),
        of(halves, cuts, names::TARGETS),
        of(halves, cuts, names::LABELS),
        of(halves, cuts, names::WEAK_FROM),
        of(halves, cuts, names::WEAK_TO),
        of(halves, cuts, names::ROOTS_OUT),
    );
    answer::checked(rt, "; parts: ", c)
}
