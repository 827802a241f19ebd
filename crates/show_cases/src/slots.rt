// Slot rows put into columns of the rooms that the case names: the rows lent as three columns, or the first two of them as a slice of structs.
ghost use Rattle.std.specs.Prelude.{[], ◌∷◌, length};
ghost use Rattle.slot_rows.specs.Rows.{Filling};

use crate::names;
use case_text::arrays::room;
use case_text::lists::of;
use slot_rows::{FillError, SlotRow};
use std::io;

const ROWS: usize = 8;

// Two rows lent as a slice of structs.
fn fill_two(
    first: SlotRow,
    second: SlotRow,
    offsets: &mut [u32],
    labels: &mut [u32],
    weak: &mut [u8],
) -> Result<usize, FillError>
    ensures { Filling (first ∷ second ∷ [])
        (length offsets.old) (length labels.old) (length weak.old)
        result offsets.new labels.new weak.new }
{
    slot_rows::fill_rows(&[first, second], offsets, labels, weak)
}

// Row k of the case's slots; 0 in the columns that are shorter.
fn row(offsets: &[u32], labels: &[u32], weak: &[u8], k: usize) -> SlotRow {
    SlotRow {
        offset: offsets.get(k).copied().unwrap_or(0),
        label: labels.get(k).copied().unwrap_or(0),
        weak: weak.get(k).copied().unwrap_or(0),
    }
}

fn answer(rt: &impl Print, filled: Result<usize, FillError>) -> io::Result<()> {
    let (text, number) = match filled {
        Ok(rows) => ("; rows ", rows),
        Err(FillError::Room(buffer)) => ("; refused: ROOM, 9, buffer ", buffer),
    };
    print::line(rt, text.as_bytes(), number as u64)?;
    Ok(())
}

fn fill(
    structs: bool,
    from_offsets: &[u32],
    from_labels: &[u32],
    from_weak: &[u8],
    offsets: &mut [u32],
    labels: &mut [u32],
    weak: &mut [u8],
) -> Result<usize, FillError> {
    if structs {
        return fill_two(
            row(from_offsets, from_labels, from_weak, 0),
            row(from_offsets, from_labels, from_weak, 1),
            offsets,
            labels,
            weak,
        );
    }
    slot_rows::fill_columns(from_offsets, from_labels, from_weak, offsets, labels, weak)
}

fn show(
    rt: &impl Print,
    bytes: &[u8],
    halves: &[u32],
    cuts: &[usize],
    structs: bool,
    offsets: &mut [u32],
    labels: &mut [u32],
    weak: &mut [u8],
) -> io::Result<()> {
    let filled = fill(
        structs,
        of(halves, cuts, names::SLOT_OFFSETS),
        of(halves, cuts, names::SLOT_LABELS),
        of(bytes, cuts, names::SLOT_WEAK),
        offsets,
        labels,
        weak,
    );
    answer(rt, filled)?;
    print::column(rt, b"  offsets", offsets)?;
    print::column(rt, b"  labels", labels)?;
    print::column(rt, b"  weak", weak)?;
    Ok(())
}

// What the columns hold before, nines, is seen behind the rows if it is not cleared.
pub(crate) fn lend(
    rt: &impl Print,
    bytes: &[u8],
    halves: &[u32],
    words: &[u64],
    cuts: &[usize],
    structs: bool,
) -> io::Result<()> {
    let rooms = of(words, cuts, names::ROOMS);
    let offsets_room = room(rooms, 0, ROWS);
    let labels_room = room(rooms, 1, ROWS);
    let weak_room = room(rooms, 2, ROWS);
    let mut offsets: [u32; ROWS] = [9; ROWS];
    let mut labels: [u32; ROWS] = [9; ROWS];
    let mut weak: [u8; ROWS] = [9; ROWS];
    show(
        rt,
        bytes,
        halves,
        cuts,
        structs,
        &mut offsets[..offsets_room],
        &mut labels[..labels_room],
        &mut weak[..weak_room],
    )
}
