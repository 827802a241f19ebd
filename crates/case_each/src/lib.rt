// What is written of a field asked of each object of a list (M-104): the answers of the objects that exist, in columns of just their number; what is said where one of
// the columns is a number short; and what is said of the whole list, where an object of it does not exist.
#![tactic(auto)]

mod lent;
mod list;
mod show;
pub mod words;

use ask_span::Strong;
use case_text::column::used;
use std::io;
use words::Named;

fn tell(rt: &impl Print, label: u32) -> io::Result<()> {
    print::word(rt, b"  each ")?;
    Named(label).tell(rt)
}

// Each of the two columns one number short; an empty list needs no room.
fn one_short(rt: &impl Print, graph: Strong<'_>, objects: &[u32], label: u32) -> io::Result<()> {
    let count = objects.len();
    if count == 0 {
        return Ok(());
    }
    print::word(rt, b" short")?;
    lent::run(rt, graph, objects, label, count - 1, count)?;
    lent::run(rt, graph, objects, label, count, count - 1)
}

// The objects that exist.
fn existing(rt: &impl Print, graph: Strong<'_>, objects: &[u32], label: u32) -> io::Result<()> {
    tell(rt, label)?;
    print::word(rt, b":")?;
    lent::run(rt, graph, objects, label, objects.len(), objects.len())?;
    one_short(rt, graph, objects, label)?;
    print::word(rt, b"\n")?;
    Ok(())
}

// The whole list.
fn whole(rt: &impl Print, graph: Strong<'_>, objects: &[u32], label: u32) -> io::Result<()> {
    tell(rt, label)?;
    print::word(rt, b" of all:")?;
    lent::refusal(rt, graph, objects, label)?;
    print::word(rt, b"\n")?;
    Ok(())
}

// Both lists, asked a label.
fn asked(
    rt: &impl Print,
    graph: Strong<'_>,
    there: &[u32],
    objects: &[u32],
    label: u32,
) -> io::Result<()> {
    existing(rt, graph, there, label)?;
    if there.len() < objects.len() {
        whole(rt, graph, objects, label)?;
    }
    Ok(())
}

fn labels(
    rt: &impl Print,
    graph: Strong<'_>,
    pairs: &[u32],
    there: &[u32],
    objects: &[u32],
) -> io::Result<()> {
    for label in list::labels(pairs) {
        asked(rt, graph, there, objects, label)?;
    }
    Ok(())
}

fn listed(
    rt: &impl Print,
    graph: Strong<'_>,
    pairs: &[u32],
    count: usize,
    there: &mut [u32],
    objects: &mut [u32],
) -> io::Result<()> {
    let there_count = list::objects(pairs, |object| (object as usize) < count, there);
    let objects_count = list::objects(pairs, |_| true, objects);
    labels(
        rt,
        graph,
        pairs,
        used(there, there_count),
        used(objects, objects_count),
    )
}

// Of a graph of so many objects, by the used parts of its columns. A case without field questions has no list.
pub fn all(rt: &impl Print, graph: Strong<'_>, pairs: &[u32], count: usize) -> io::Result<()> {
    if pairs.is_empty() {
        return Ok(());
    }
    let mut there: [u32; list::MOST] = [0; list::MOST];
    let mut objects: [u32; list::MOST] = [0; list::MOST];
    listed(
        rt,
        graph,
        used(pairs, 2 * list::MOST),
        count,
        &mut there,
        &mut objects,
    )
}
