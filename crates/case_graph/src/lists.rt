// The lists of a case, in the order of the text.
use case_text::fault::Malformed;
use case_text::lists;
use case_text::lists::{Listed, Used, Width};

// The lists in the order of the text, which is that of the builds' parameters. The raw route has no fourth list of its own.
pub const NUMBERS: usize = 0;

pub const IDS: usize = 1;

pub const KINDS: usize = 2;

pub const CLASSES: usize = 3;

pub const LENGTHS: usize = 4;

pub const CLASS_IDS: usize = 5;

pub const LOADERS: usize = 6;

pub const DUMPED: usize = 7;

pub const CLASS_KINDS: usize = 8;

pub const SLOT_STARTS: usize = 9;

pub const SLOT_ENDS: usize = 10;

pub const STATIC_STARTS: usize = 11;

pub const STATIC_ENDS: usize = 12;

pub const SLOT_OFFSETS: usize = 13;

pub const SLOT_LABELS: usize = 14;

pub const SLOT_WEAK: usize = 15;

pub const STATIC_NAMES: usize = 16;

pub const STATIC_TYPES: usize = 17;

pub const STATIC_VALUES: usize = 18;

pub const CODES_OR_BYTES: usize = 19;

pub const ESCAPE_PLACES_OR_STARTS: usize = 20;

pub const ESCAPE_IDS_OR_BODIES: usize = 21;

pub const COPIED_STARTS: usize = 22;

pub const ROOTS: usize = 23;

pub const ROOMS: usize = 24;

pub const FIELD: usize = 25;

pub const REFERENT: usize = 26;

pub const LABEL_OF: usize = 27;

pub const LISTS: usize = 28;

// The width of a list's numbers; the raw route has a list less.
fn width(raw: bool, k: usize) -> Option<Width> {
    match k {
        KINDS | DUMPED | CLASS_KINDS | SLOT_WEAK | STATIC_TYPES => Some(Width::Bytes),
        NUMBERS | IDS | CLASS_IDS | LOADERS | STATIC_VALUES | ESCAPE_PLACES_OR_STARTS | ROOMS => {
            Some(Width::Words)
        }
        CODES_OR_BYTES if raw => Some(Width::Bytes),
        ESCAPE_IDS_OR_BODIES if !raw => Some(Width::Words),
        COPIED_STARTS if raw => None,
        _ => Some(Width::Halves),
    }
}

// The first number of a case is its route.
fn is_raw(words: &[u64]) -> bool {
    words.first().is_some_and(|route| *route == 1)
}

// All lists of a case.
pub fn all(
    text: &[u8],
    from: usize,
    bytes: &mut [u8],
    halves: &mut [u32],
    words: &mut [u64],
    cuts: &mut [usize],
) -> Result<Listed, Malformed> {
    let mut read = Listed {
        next: from,
        used: Used::default(),
    };
    for k in 0..LISTS {
        let Some(width) = width(is_raw(words), k) else {
            lists::cut(cuts, k, 0, 0);
            continue;
        };
        let start = read.used.of(width);
        read = lists::next_list(text, read.next, bytes, halves, words, read.used, width)?;
        lists::cut(cuts, k, start, read.used.of(width));
    }
    Ok(read)
}
