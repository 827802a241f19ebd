// The graph handed over by its plain columns, in lent columns of the rooms that the case names, and what is left in them.
use crate::checks::first;
use crate::{answer, names};
use case_text::arrays::{EDGES, NAMED, room};
use case_text::column::used;
use case_text::lists::of;
use case_text::{arrays, column};
use labels::Codes;
use rules::{Counts, Refusal};
use std::io;

const ROWS: usize = 8;

fn hand(
    bytes: &[u8],
    halves: &[u32],
    words: &[u64],
    cuts: &[usize],
    bases: &mut [u64],
    short: &mut [u16],
    long_at: &mut [u32],
    long_value: &mut [u64],
    fields: &mut [u32],
    table: &mut [u16],
    escape_at: &mut [u64],
    escape_label: &mut [u32],
    codes: &mut [u16],
    counting: &mut [u64],
    ranking: &mut [u64],
) -> Result<Counts, Refusal> {
    from_parts::from_parts(
        of(words, cuts, names::CLASS_IDS),
        of(words, cuts, names::LOADERS),
        of(bytes, cuts, names::DUMPED),
        of(bytes, cuts, names::CLASS_KINDS),
        of(halves, cuts, names::SLOT_STARTS),
        of(halves, cuts, names::SLOT_ENDS),
        of(halves, cuts, names::STATIC_STARTS),
        of(halves, cuts, names::STATIC_ENDS),
        of(halves, cuts, names::SLOT_OFFSETS),
        of(halves, cuts, names::SLOT_LABELS),
        of(bytes, cuts, names::SLOT_WEAK),
        of(halves, cuts, names::STATIC_NAMES),
        of(bytes, cuts, names::STATIC_TYPES),
        of(words, cuts, names::STATIC_VALUES),
        first(words, cuts, names::NAMES) as usize,
        of(words, cuts, names::OFFSETS),
        of(halves, cuts, names::TARGETS),
        of(halves, cuts, names::LABELS),
        of(halves, cuts, names::WEAK_FROM),
        of(halves, cuts, names::WEAK_TO),
        of(halves, cuts, names::ROOTS_OUT),
        first(words, cuts, names::DANGLING),
        bases,
        short,
        long_at,
        long_value,
        fields,
        table,
        escape_at,
        escape_label,
        codes,
        counting,
        ranking,
    )
}

// How many labels of the object whose edges are from one place up to another are read back.
fn count_read(labels: &[u32], codes: Codes<'_>, from: usize, to: usize) -> usize {
    if labels.len() < to || codes.codes.len() < to {
        return 0;
    }
    let mut same = 0;
    for e in from..to {
        let read = codes.exact(from, e - from);
        if read.is_ok_and(|l| l.0 == labels[e]) {
            same += 1;
        }
    }
    same
}

// Of each object, how many of its labels are read back from their codes.
fn read_back(rt: &impl Print, offsets: &[u64], labels: &[u32], codes: Codes<'_>) -> io::Result<()> {
    print::word(rt, b"  read back")?;
    for o in 1..offsets.len() {
        let from = offsets[o - 1] as usize;
        let to = offsets[o] as usize;
        let same = count_read(labels, codes, from, to);
        print::word(rt, b" ")?;
        print::number(rt, same as u64)?;
    }
    print::word(rt, b"\n")?;
    Ok(())
}

// After an acceptance.
fn read(
    rt: &impl Print,
    c: Counts,
    halves: &[u32],
    words: &[u64],
    cuts: &[usize],
    fields: &[u32],
    escape_at: &[u64],
    escape_label: &[u32],
    codes: &[u16],
) -> io::Result<()> {
    let codes = Codes {
        codes,
        fields: used(fields, c.fields),
        escape_at: used(escape_at, c.escapes),
        escape_label: used(escape_label, c.escapes),
    };
    read_back(
        rt,
        of(words, cuts, names::OFFSETS),
        of(halves, cuts, names::LABELS),
        codes,
    )
}

// What is left in the columns.
fn left(
    rt: &impl Print,
    answer: Result<Counts, Refusal>,
    halves: &[u32],
    words: &[u64],
    cuts: &[usize],
    bases: &[u64],
    short: &[u16],
    long_at: &[u32],
    long_value: &[u64],
    fields: &[u32],
    table: &[u16],
    escape_at: &[u64],
    escape_label: &[u32],
    codes: &[u16],
    counting: &[u64],
    ranking: &[u64],
) -> io::Result<()> {
    answer::built(rt, answer)?;
    column::offset_columns(rt, bases, short, long_at, long_value, fields, table)?;
    column::code_columns(rt, escape_at, escape_label, codes, counting, ranking)?;
    match answer {
        Ok(c) => read(
            rt,
            c,
            halves,
            words,
            cuts,
            fields,
            escape_at,
            escape_label,
            codes,
        ),
        Err(_) => Ok(()),
    }
}

fn show(
    rt: &impl Print,
    bytes: &[u8],
    halves: &[u32],
    words: &[u64],
    cuts: &[usize],
    bases: &mut [u64],
    short: &mut [u16],
    long_at: &mut [u32],
    long_value: &mut [u64],
    fields: &mut [u32],
    table: &mut [u16],
    escape_at: &mut [u64],
    escape_label: &mut [u32],
    codes: &mut [u16],
    counting: &mut [u64],
    ranking: &mut [u64],
) -> io::Result<()> {
    let answer = hand(
        bytes,
        halves,
        words,
        cuts,
        bases,
        short,
        long_at,
        long_value,
        fields,
        table,
        escape_at,
        escape_label,
        codes,
        counting,
        ranking,
    );
    left(
        rt,
        answer,
        halves,
        words,
        cuts,
        bases,
        short,
        long_at,
        long_value,
        fields,
        table,
        escape_at,
        escape_label,
        codes,
        counting,
        ranking,
    )
}

// The columns hold nines before.
pub(crate) fn lend(
    rt: &impl Print,
    bytes: &[u8],
    halves: &[u32],
    words: &[u64],
    cuts: &[usize],
) -> io::Result<()> {
    let rooms = of(words, cuts, names::ROOMS);
    let bases_room = room(rooms, 0, ROWS);
    let short_room = room(rooms, 1, ROWS);
    let long_at_room = room(rooms, 2, ROWS);
    let long_value_room = room(rooms, 3, ROWS);
    let fields_room = room(rooms, 4, NAMED);
    let table_room = room(rooms, 5, NAMED);
    let escape_at_room = room(rooms, 6, NAMED);
    let escape_label_room = room(rooms, 7, NAMED);
    let codes_room = room(rooms, 8, EDGES);
    let counting_room = room(rooms, 9, NAMED);
    let ranking_room = room(rooms, 10, NAMED);
    let mut bases: [u64; ROWS] = [9; ROWS];
    let mut short: [u16; ROWS] = [9; ROWS];
    let mut long_at: [u32; ROWS] = [9; ROWS];
    let mut long_value: [u64; ROWS] = [9; ROWS];
    let mut fields: [u32; NAMED] = arrays::filled(9);
    let mut table: [u16; NAMED] = arrays::filled(9);
    let mut escape_at: [u64; NAMED] = arrays::filled(9);
    let mut escape_label: [u32; NAMED] = arrays::filled(9);
    let mut codes: [u16; EDGES] = arrays::filled(9);
    let mut counting: [u64; NAMED] = arrays::filled(9);
    let mut ranking: [u64; NAMED] = arrays::filled(9);
    show(
        rt,
        bytes,
        halves,
        words,
        cuts,
        &mut bases[..bases_room],
        &mut short[..short_room],
        &mut long_at[..long_at_room],
        &mut long_value[..long_value_room],
        &mut fields[..fields_room],
        &mut table[..table_room],
        &mut escape_at[..escape_at_room],
        &mut escape_label[..escape_label_room],
        &mut codes[..codes_room],
        &mut counting[..counting_room],
        &mut ranking[..ranking_room],
    )
}
