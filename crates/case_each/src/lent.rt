// The columns that the answers are laid in: arrays full of nines, of which rooms are lent.
use crate::list::MOST;
use crate::show;
use ask_span::Strong;
use std::io;

// A list asked in columns lent.
fn asked(
    rt: &impl Print,
    graph: Strong<'_>,
    objects: &[u32],
    label: u32,
    own_targets: &mut [u32],
    found: &mut [u8],
) -> io::Result<()> {
    let says = ask_each::field(graph, objects, label, own_targets, found);
    show::said(rt, says, own_targets, found)
}

// A list asked in room for so many targets and marks.
pub(crate) fn run(
    rt: &impl Print,
    graph: Strong<'_>,
    objects: &[u32],
    label: u32,
    targets_room: usize,
    found_room: usize,
) -> io::Result<()> {
    let mut own_targets: [u32; MOST] = [9; MOST];
    let mut found: [u8; MOST] = [9; MOST];
    asked(
        rt,
        graph,
        objects,
        label,
        &mut own_targets[..targets_room.min(MOST)],
        &mut found[..found_room.min(MOST)],
    )
}

// A list asked in all the room that there is, and whether that is zero after it.
pub(crate) fn refusal(
    rt: &impl Print,
    graph: Strong<'_>,
    objects: &[u32],
    label: u32,
) -> io::Result<()> {
    let mut own_targets: [u32; MOST] = [9; MOST];
    let mut found: [u8; MOST] = [9; MOST];
    asked(rt, graph, objects, label, &mut own_targets, &mut found)?;
    show::left(rt, &own_targets, &found)
}
