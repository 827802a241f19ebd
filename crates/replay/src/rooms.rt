// The columns that a case is built in: fixed arrays full of nines, of which the case's rooms are lent.
use crate::routes;
use case_graph::case;
use case_graph::case::{BLOCKS, Numbers, ROWS};
use case_text::arrays::{EDGES, NAMED, room};
use case_text::column::used;
use case_text::{arrays, column, form};
use std::io;

// The columns of a case, each with the room that the case names.
fn lend(
    rt: &impl Print,
    bytes: &[u8],
    halves: &[u32],
    words: &[u64],
    cuts: &[usize],
    n: Numbers,
) -> io::Result<()> {
    let rooms = case::rooms_of(words, cuts, n.set);
    let targets_room = room(rooms, 0, EDGES);
    let labels_room = room(rooms, 1, EDGES);
    let weak_from_room = room(rooms, 2, ROWS);
    let weak_to_room = room(rooms, 3, ROWS);
    let roots_room = room(rooms, 4, ROWS);
    let working_room = room(rooms, 5, ROWS);
    let bases_room = room(rooms, 6, BLOCKS);
    let short_room = room(rooms, 7, ROWS);
    let long_at_room = room(rooms, 8, ROWS);
    let long_value_room = room(rooms, 9, ROWS);
    let fields_room = room(rooms, 10, NAMED);
    let table_room = room(rooms, 11, NAMED);
    let escape_at_room = room(rooms, 12, ROWS);
    let escape_label_room = room(rooms, 13, ROWS);
    let codes_room = room(rooms, 14, EDGES);
    let counting_room = room(rooms, 15, NAMED);
    let ranking_room = room(rooms, 16, NAMED);
    let mut targets: [u32; EDGES] = arrays::filled(9);
    let mut labels: [u32; EDGES] = arrays::filled(9);
    let mut weak_from: [u32; ROWS] = [9; ROWS];
    let mut weak_to: [u32; ROWS] = [9; ROWS];
    let mut roots: [u32; ROWS] = [9; ROWS];
    let mut working: [u64; ROWS] = [9; ROWS];
    let mut account: [[u64; 3]; 4] = [[9; 3]; 4];
    let mut bases: [u64; BLOCKS] = [9; BLOCKS];
    let mut short: [u16; ROWS] = [9; ROWS];
    let mut long_at: [u32; ROWS] = [9; ROWS];
    let mut long_value: [u64; ROWS] = [9; ROWS];
    let mut fields: [u32; NAMED] = arrays::filled(9);
    let mut table: [u16; NAMED] = arrays::filled(9);
    let mut escape_at: [u64; ROWS] = [9; ROWS];
    let mut escape_label: [u32; ROWS] = [9; ROWS];
    let mut codes: [u16; EDGES] = arrays::filled(9);
    let mut counting: [u64; NAMED] = arrays::filled(9);
    let mut ranking: [u64; NAMED] = arrays::filled(9);
    routes::run(
        rt,
        bytes,
        halves,
        words,
        cuts,
        n,
        &mut targets[..targets_room],
        &mut labels[..labels_room],
        &mut weak_from[..weak_from_room],
        &mut weak_to[..weak_to_room],
        &mut roots[..roots_room],
        &mut working[..working_room],
        &mut account,
        &mut bases[..bases_room],
        &mut short[..short_room],
        &mut long_at[..long_at_room],
        &mut long_value[..long_value_room],
        &mut fields[..fields_room],
        &mut table[..table_room],
        &mut escape_at[..escape_at_room],
        &mut escape_label[..escape_label_room],
        &mut codes[..codes_room],
        &mut counting[..counting_room],
        &mut ranking[..ranking_room],
    )
}

// Which rooms are lent, where the case has several sets of them.
fn tell(rt: &impl Print, words: &[u64], cuts: &[usize], n: Numbers) -> io::Result<()> {
    if case::sets_of(words, cuts) < 2 {
        return Ok(());
    }
    column::of(rt, "  rooms", used(case::rooms_of(words, cuts, n.set), 17))
}

// The case in each of its sets of rooms.
fn each(
    rt: &impl Print,
    bytes: &[u8],
    halves: &[u32],
    words: &[u64],
    cuts: &[usize],
    n: Numbers,
) -> io::Result<()> {
    for set in 0..case::sets_of(words, cuts) {
        let own = case::with_set(n, set);
        tell(rt, words, cuts, own)?;
        lend(rt, bytes, halves, words, cuts, own)?;
    }
    Ok(())
}

// Which policy is followed, where the case has several.
fn tell_policy(rt: &impl Print, n: Numbers) -> io::Result<()> {
    if !n.several {
        return Ok(());
    }
    form::fill(
        rt,
        b"  policy: keep soft #, keep weak #\n",
        &[u64::from(n.soft), u64::from(n.weak)],
    )
}

// The case under its policy, or under every policy.
pub(crate) fn every(
    rt: &impl Print,
    bytes: &[u8],
    halves: &[u32],
    words: &[u64],
    cuts: &[usize],
    n: Numbers,
) -> io::Result<()> {
    let policies = case::policies_of(words, cuts);
    for policy in 0..policies {
        let own = case::with_policy(n, policies, policy);
        tell_policy(rt, own)?;
        each(rt, bytes, halves, words, cuts, own)?;
    }
    Ok(())
}
