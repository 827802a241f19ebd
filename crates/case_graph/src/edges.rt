// The line of an object: its span, its edges in exactly the room that they need, what is said of one number less, and its weak targets.
use ask_span::{Graph, Strong};
use case_each::words::{Named, Refused, refusal};
use case_text::zero::zero;
use case_text::{column, form};
use rules::{ListError, ReadError, Span};
use std::io;

// Edges to one target whose labels follow each other.
#[derive(Clone, Copy)]
struct Run {
    target: u32,
    first: u32,
    last: u32,
}

fn show_run(rt: &impl Print, r: Run) -> io::Result<()> {
    form::fill(rt, b" #:", &[u64::from(r.target)])?;
    Named(r.first).tell(rt)?;
    if r.first < r.last {
        print::word(rt, b"..")?;
        Named(r.last).tell(rt)?;
    }
    Ok(())
}

// A run with one edge more; a run that does not go on is written, and the edge begins another.
fn with_edge(rt: &impl Print, run: Option<Run>, target: u32, label: u32) -> io::Result<Run> {
    let mut first = label;
    if let Some(r) = run {
        if r.target == target && label.checked_sub(1) == Some(r.last) {
            first = r.first;
        } else {
            show_run(rt, r)?;
        }
    }
    Ok(Run {
        target,
        first,
        last: label,
    })
}

fn runs(rt: &impl Print, own_targets: &[u32], own_labels: &[u32]) -> io::Result<()> {
    let mut run = None;
    for (target, label) in own_targets.iter().zip(own_labels) {
        run = Some(with_edge(rt, run, *target, *label)?);
    }
    match run {
        Some(r) => show_run(rt, r),
        None => Ok(()),
    }
}

fn show_edges(
    rt: &impl Print,
    found: Result<usize, ListError>,
    own_targets: &[u32],
    own_labels: &[u32],
) -> io::Result<()> {
    match found {
        Ok(_) => runs(rt, own_targets, own_labels),
        Err(e) => refusal(rt, e, zero(own_targets) && zero(own_labels)),
    }
}

// The edges of an object, in room for so many targets and labels.
fn edges(
    rt: &impl Print,
    graph: Strong<'_>,
    object: usize,
    targets_room: usize,
    labels_room: usize,
    own_targets: &mut [u32],
    own_labels: &mut [u32],
) -> io::Result<()> {
    let Some(own_targets) = own_targets.get_mut(..targets_room) else {
        return Ok(());
    };
    let Some(own_labels) = own_labels.get_mut(..labels_room) else {
        return Ok(());
    };
    let found = ask_edges::object_edges(graph, object, own_targets, own_labels);
    show_edges(rt, found, own_targets, own_labels)
}

fn show_span(rt: &impl Print, at: Result<Span, ReadError>) -> io::Result<()> {
    print::word(rt, b" span ")?;
    match at {
        Ok(s) => form::fill(rt, b"# #", &[s.start as u64, s.end as u64]),
        Err(e) => Refused(e.into()).tell(rt),
    }
}

fn show_weak(rt: &impl Print, weak_to: &[u32], rows: Result<Span, ReadError>) -> io::Result<()> {
    match rows {
        Ok(s) => column::of(rt, " weak", column::part(weak_to, s.start, s.end)),
        Err(e) => {
            print::word(rt, b" weak ")?;
            Refused(e.into()).tell(rt)?;
            print::word(rt, b"\n")?;
            Ok(())
        }
    }
}

// Of an object with edges, each of the two columns one number short.
fn one_short(
    rt: &impl Print,
    graph: Strong<'_>,
    object: usize,
    count: usize,
    own_targets: &mut [u32],
    own_labels: &mut [u32],
) -> io::Result<()> {
    if count == 0 {
        return Ok(());
    }
    print::word(rt, b" short")?;
    edges(rt, graph, object, count - 1, count, own_targets, own_labels)?;
    edges(rt, graph, object, count, count - 1, own_targets, own_labels)
}

pub(crate) fn object(
    rt: &impl Print,
    graph: Graph<'_>,
    o: usize,
    own_targets: &mut [u32],
    own_labels: &mut [u32],
) -> io::Result<()> {
    let strong = graph.strong();
    let at = strong.span(o);
    form::fill(rt, b"  object #", &[o as u64])?;
    show_span(rt, at)?;
    print::word(rt, b" edges")?;
    let count = at.map_or(0, |s| s.end.saturating_sub(s.start));
    edges(rt, strong, o, count, count, own_targets, own_labels)?;
    one_short(rt, strong, o, count, own_targets, own_labels)?;
    let rows = ask_span::weak_referents(graph.offsets.short, graph.weak_from, graph.weak_to, o);
    show_weak(rt, graph.weak_to, rows)
}
