// The words of the text: the lists of a case, by the width of their numbers, and what is done with them.
use case_text::lists::Width;
use case_text::text::find;

// The numbers of the lists: those of 64 bits from 0 on, of 32 bits from 20 on, of 8 bits from 40 on. There are no more than 50.
pub(crate) const IDS: usize = 0;

pub(crate) const CLASS_IDS: usize = 1;

pub(crate) const LOADERS: usize = 2;

pub(crate) const STATIC_VALUES: usize = 3;

pub(crate) const ESCAPE_PLACES: usize = 4;

pub(crate) const ESCAPE_IDS: usize = 5;

pub(crate) const BODY_STARTS: usize = 6;

pub(crate) const OFFSETS: usize = 7;

pub(crate) const NAMES: usize = 8;

pub(crate) const BASE: usize = 9;

pub(crate) const SIZE: usize = 10;

pub(crate) const POLICY: usize = 11;

pub(crate) const DANGLING: usize = 12;

pub(crate) const ROOMS: usize = 13;

pub(crate) const CLASSES: usize = 20;

pub(crate) const LENGTHS: usize = 21;

pub(crate) const SLOT_STARTS: usize = 22;

pub(crate) const SLOT_ENDS: usize = 23;

pub(crate) const STATIC_STARTS: usize = 24;

pub(crate) const STATIC_ENDS: usize = 25;

pub(crate) const SLOT_OFFSETS: usize = 26;

pub(crate) const SLOT_LABELS: usize = 27;

pub(crate) const STATIC_NAMES: usize = 28;

pub(crate) const CODES: usize = 29;

pub(crate) const STARTS: usize = 30;

pub(crate) const BODIES: usize = 31;

pub(crate) const ROOTS: usize = 32;

pub(crate) const TARGETS: usize = 33;

pub(crate) const LABELS: usize = 34;

pub(crate) const WEAK_FROM: usize = 35;

pub(crate) const WEAK_TO: usize = 36;

pub(crate) const ROOTS_OUT: usize = 37;

pub(crate) const KINDS: usize = 40;

pub(crate) const DUMPED: usize = 41;

pub(crate) const CLASS_KINDS: usize = 42;

pub(crate) const SLOT_WEAK: usize = 43;

pub(crate) const STATIC_TYPES: usize = 44;

pub(crate) const BYTES: usize = 45;

// What is done with a case.
#[derive(Clone, Copy)]
pub(crate) enum Call {
    Copied,
    Raw,
    Working,
    Parts,
    Hand,
    Columns,
    Rows,
}

#[derive(Clone, Copy)]
pub(crate) enum Word {
    List(usize, Width),
    Call(Call),
    Keep,
}

const WORDS: [(&str, Word); 46] = [
    ("ids", Word::List(IDS, Width::Words)),
    ("class_ids", Word::List(CLASS_IDS, Width::Words)),
    ("loaders", Word::List(LOADERS, Width::Words)),
    ("static_values", Word::List(STATIC_VALUES, Width::Words)),
    ("escape_places", Word::List(ESCAPE_PLACES, Width::Words)),
    ("escape_ids", Word::List(ESCAPE_IDS, Width::Words)),
    ("body_starts", Word::List(BODY_STARTS, Width::Words)),
    ("offsets", Word::List(OFFSETS, Width::Words)),
    ("names", Word::List(NAMES, Width::Words)),
    ("base", Word::List(BASE, Width::Words)),
    ("size", Word::List(SIZE, Width::Words)),
    ("policy", Word::List(POLICY, Width::Words)),
    ("dangling", Word::List(DANGLING, Width::Words)),
    ("rooms", Word::List(ROOMS, Width::Words)),
    ("classes", Word::List(CLASSES, Width::Halves)),
    ("lengths", Word::List(LENGTHS, Width::Halves)),
    ("slot_starts", Word::List(SLOT_STARTS, Width::Halves)),
    ("slot_ends", Word::List(SLOT_ENDS, Width::Halves)),
    ("static_starts", Word::List(STATIC_STARTS, Width::Halves)),
    ("static_ends", Word::List(STATIC_ENDS, Width::Halves)),
    ("slot_offsets", Word::List(SLOT_OFFSETS, Width::Halves)),
    ("slot_labels", Word::List(SLOT_LABELS, Width::Halves)),
    ("static_names", Word::List(STATIC_NAMES, Width::Halves)),
    ("codes", Word::List(CODES, Width::Halves)),
    ("starts", Word::List(STARTS, Width::Halves)),
    ("bodies", Word::List(BODIES, Width::Halves)),
    ("roots", Word::List(ROOTS, Width::Halves)),
    ("targets", Word::List(TARGETS, Width::Halves)),
    ("labels", Word::List(LABELS, Width::Halves)),
    ("weak_from", Word::List(WEAK_FROM, Width::Halves)),
    ("weak_to", Word::List(WEAK_TO, Width::Halves)),
    ("roots_out", Word::List(ROOTS_OUT, Width::Halves)),
    ("kinds", Word::List(KINDS, Width::Bytes)),
    ("dumped", Word::List(DUMPED, Width::Bytes)),
    ("class_kinds", Word::List(CLASS_KINDS, Width::Bytes)),
    ("slot_weak", Word::List(SLOT_WEAK, Width::Bytes)),
    ("static_types", Word::List(STATIC_TYPES, Width::Bytes)),
    ("bytes", Word::List(BYTES, Width::Bytes)),
    ("copied", Word::Call(Call::Copied)),
    ("raw", Word::Call(Call::Raw)),
    ("working", Word::Call(Call::Working)),
    ("parts", Word::Call(Call::Parts)),
    ("hand", Word::Call(Call::Hand)),
    ("columns", Word::Call(Call::Columns)),
    ("rows", Word::Call(Call::Rows)),
    ("keep", Word::Keep),
];

pub(crate) fn read_word(text: &[u8]) -> Option<Word> {
    for (name, word) in WORDS {
        if name.as_bytes() == text {
            return Some(word);
        }
    }
    None
}

fn is_letter(b: u8) -> bool {
    b == b'_' || b.is_ascii_lowercase()
}

// Where the next word or title begins; the end of the text where there is none.
pub(crate) fn next(text: &[u8], at: usize) -> usize {
    find(text, at, |b| b == b'"' || is_letter(b))
}

// Where the word that begins at a place ends.
pub(crate) fn end_of(text: &[u8], at: usize) -> usize {
    find(text, at, |b| !is_letter(b))
}
