// The answers that an accepted graph gives: a line for each object, then the case's questions, then a field of each object of a list. They are asked of the
// used parts of the columns.
use crate::{edges, lists};
use ask_span::Graph;
use case_each::words::{Named, Refused};
use case_text::arrays::EDGES;
use case_text::lists::of;
use case_text::{arrays, form};
use rules::ReadError;
use std::io;

// What a question asks: an object, and a label or a target.
#[derive(Clone, Copy)]
struct Pair {
    object: u32,
    other: u32,
}

fn pair_at(pairs: &[u32], i: usize) -> Pair {
    if i < pairs.len() / 2 {
        Pair {
            object: pairs[2 * i],
            other: pairs[2 * i + 1],
        }
    } else {
        Pair {
            object: 0,
            other: 0,
        }
    }
}

// What a question finds: a target is told by its number, a label by its name.
trait Found: Copy {
    fn show(self, rt: &impl Print) -> io::Result<()>;
}

impl Found for u32 {
    fn show(self, rt: &impl Print) -> io::Result<()> {
        print::number(rt, u64::from(self))?;
        Ok(())
    }
}

impl Found for Named {
    fn show(self, rt: &impl Print) -> io::Result<()> {
        self.tell(rt)
    }
}

fn show<F: Found>(rt: &impl Print, answer: Result<Option<F>, ReadError>) -> io::Result<()> {
    match answer {
        Ok(Some(found)) => found.show(rt)?,
        Ok(None) => form::fill(rt, b"nothing", &[])?,
        Err(e) => Refused(e.into()).tell(rt)?,
    }
    print::word(rt, b"\n")?;
    Ok(())
}

// The line of each object. Its long arrays need the stack only while it runs.
#[inline(never)]
fn objects(rt: &impl Print, graph: Graph<'_>, count: usize) -> io::Result<()> {
    let mut own_targets: [u32; EDGES] = arrays::filled(9);
    let mut own_labels: [u32; EDGES] = arrays::filled(9);
    for o in 0..count {
        edges::object(rt, graph, o, &mut own_targets, &mut own_labels)?;
    }
    Ok(())
}

fn field_answers(rt: &impl Print, graph: Graph<'_>, pairs: &[u32]) -> io::Result<()> {
    for i in 0..pairs.len() / 2 {
        let p = pair_at(pairs, i);
        form::fill(rt, b"  field # ", &[u64::from(p.object)])?;
        Named(p.other).tell(rt)?;
        print::word(rt, b": ")?;
        show(
            rt,
            ask_field::field(graph.strong(), p.object as usize, p.other),
        )?;
    }
    Ok(())
}

fn referent_answers(rt: &impl Print, graph: Graph<'_>, pairs: &[u32]) -> io::Result<()> {
    for i in 0..pairs.len() / 2 {
        let p = pair_at(pairs, i);
        form::fill(rt, b"  referent # ", &[u64::from(p.object)])?;
        Named(p.other).tell(rt)?;
        print::word(rt, b": ")?;
        show(rt, ask_field::referent(graph, p.object as usize, p.other))?;
    }
    Ok(())
}

fn label_answers(rt: &impl Print, graph: Graph<'_>, pairs: &[u32]) -> io::Result<()> {
    for i in 0..pairs.len() / 2 {
        let p = pair_at(pairs, i);
        let numbers = [u64::from(p.object), u64::from(p.other)];
        form::fill(rt, b"  label_of # #: ", &numbers)?;
        let answer = ask_label::label_of(graph.strong(), p.object as usize, p.other);
        show(rt, answer.map(|found| found.map(|l| Named(l.0))))?;
    }
    Ok(())
}

// The object lines, the questions, and those asked of a list.
pub(crate) fn all(
    rt: &impl Print,
    halves: &[u32],
    cuts: &[usize],
    count: usize,
    graph: Graph<'_>,
) -> io::Result<()> {
    let fields = of(halves, cuts, lists::FIELD);
    objects(rt, graph, count)?;
    field_answers(rt, graph, fields)?;
    referent_answers(rt, graph, of(halves, cuts, lists::REFERENT))?;
    label_answers(rt, graph, of(halves, cuts, lists::LABEL_OF))?;
    case_each::all(rt, graph.strong(), fields, count)
}
