// Cases (i) and (j): questions to the finished columns, which cases (a) to (d) give.
use ask_span::Graph;
use case_text::form;
use case_text::refusal::Refused;
use labels::Codes;
use rules::{Label, ReadError};
use std::io;
use store::Offsets;

fn target(rt: &impl Print, found: Result<Option<u32>, ReadError>) -> io::Result<()> {
    match found {
        Ok(Some(t)) => form::fill(rt, b" object #\n", &[u64::from(t)]),
        Ok(None) => form::fill(rt, b" nothing\n", &[]),
        Err(e) => Refused::from(e).line(rt, " refused: "),
    }
}

fn label(rt: &impl Print, found: Result<Option<Label>, ReadError>) -> io::Result<()> {
    match found {
        Ok(Some(l)) => form::fill(rt, b" label #\n", &[u64::from(l.0)]),
        Ok(None) => form::fill(rt, b" nothing\n", &[]),
        Err(e) => Refused::from(e).line(rt, " refused: "),
    }
}

fn field(
    rt: &impl Print,
    question: &str,
    graph: Graph<'_>,
    object: usize,
    label: u32,
) -> io::Result<()> {
    print::word(rt, question.as_bytes())?;
    let found = ask_field::field(graph.strong(), object, label);
    target(rt, found)
}

fn referent(
    rt: &impl Print,
    question: &str,
    graph: Graph<'_>,
    object: usize,
    label: u32,
) -> io::Result<()> {
    print::word(rt, question.as_bytes())?;
    let found = ask_field::referent(graph, object, label);
    target(rt, found)
}

fn exact_label(
    rt: &impl Print,
    question: &str,
    graph: Graph<'_>,
    object: usize,
    edge: usize,
) -> io::Result<()> {
    print::word(rt, question.as_bytes())?;
    let found = ask_label::exact_label(graph.strong(), object, edge);
    label(rt, found.map(Some))
}

fn label_of(
    rt: &impl Print,
    question: &str,
    graph: Graph<'_>,
    object: usize,
    target: u32,
) -> io::Result<()> {
    print::word(rt, question.as_bytes())?;
    let found = ask_label::label_of(graph.strong(), object, target);
    label(rt, found)
}

fn list(rt: &impl Print, own_targets: &[u32], own_labels: &[u32], count: usize) -> io::Result<()> {
    for (target, label) in own_targets.iter().zip(own_labels).take(count) {
        let numbers = [u64::from(*target), u64::from(*label)];
        form::fill(rt, b"    object #\n      by label #\n", &numbers)?;
    }
    Ok(())
}

// All edges of an object, in these columns.
fn edges(
    rt: &impl Print,
    question: &str,
    graph: Graph<'_>,
    object: usize,
    own_targets: &mut [u32],
    own_labels: &mut [u32],
) -> io::Result<()> {
    print::word(rt, question.as_bytes())?;
    match ask_edges::object_edges(graph.strong(), object, own_targets, own_labels) {
        Ok(n) => list(rt, own_targets, own_labels, n),
        Err(e) => Refused::from(e).line(rt, "    refused: "),
    }
}

fn all_fields(rt: &impl Print, graph: Graph<'_>) -> io::Result<()> {
    print::word(rt, b"\n(i) fields, found by their codes\n")?;
    field(
        rt,
        "  field(2, ARRAY_ELEMENT):",
        graph,
        2,
        Label::ARRAY_ELEMENT,
    )?;
    field(
        rt,
        "  field(2, ARRAY_ELEMENT + 1):",
        graph,
        2,
        Label::ARRAY_ELEMENT + 1,
    )?;
    field(rt, "  field(3, LOADER):", graph, 3, Label::LOADER)?;
    field(rt, "  field(3, 3), the name count:", graph, 3, 3)?;
    field(rt, "  field(4, 0):", graph, 4, 0)
}

fn all_referents(rt: &impl Print, graph: Graph<'_>) -> io::Result<()> {
    print::word(rt, b"\n(j) a weak referent, where there is no such field\n")?;
    referent(rt, "  referent(1, 1):", graph, 1, 1)?;
    referent(rt, "  referent(0, 0):", graph, 0, 0)?;
    referent(rt, "  referent(0, 1):", graph, 0, 1)
}

fn all_labels(rt: &impl Print, graph: Graph<'_>) -> io::Result<()> {
    print::word(
        rt,
        b"\nexact labels of edges, and of the first edge to a target\n",
    )?;
    exact_label(rt, "  exact_label(2, 0):", graph, 2, 0)?;
    exact_label(rt, "  exact_label(3, 1):", graph, 3, 1)?;
    exact_label(rt, "  exact_label(3, 2):", graph, 3, 2)?;
    label_of(rt, "  label_of(3, 2):", graph, 3, 2)?;
    label_of(rt, "  label_of(3, 1):", graph, 3, 1)
}

fn all_edges(rt: &impl Print, graph: Graph<'_>) -> io::Result<()> {
    let mut own_targets: [u32; 3] = [9; 3];
    let mut own_labels: [u32; 3] = [9; 3];
    print::word(rt, b"\nall edges of an object at once, in room for three\n")?;
    edges(
        rt,
        "  of object 3:\n",
        graph,
        3,
        &mut own_targets,
        &mut own_labels,
    )?;
    edges(
        rt,
        "  of object 2:\n",
        graph,
        2,
        &mut own_targets,
        &mut own_labels,
    )?;
    edges(
        rt,
        "  of object 4:\n",
        graph,
        4,
        &mut own_targets,
        &mut own_labels,
    )?;
    let mut one: [u32; 1] = [9; 1];
    edges(
        rt,
        "  of object 3, with room for one label:\n",
        graph,
        3,
        &mut own_targets,
        &mut one,
    )
}

fn all(rt: &impl Print, graph: Graph<'_>) -> io::Result<()> {
    all_fields(rt, graph)?;
    all_referents(rt, graph)?;
    all_labels(rt, graph)?;
    all_edges(rt, graph)
}

pub(crate) fn show(rt: &impl Print) -> io::Result<()> {
    let graph = Graph {
        offsets: Offsets {
            bases: &[0],
            short: &[0, 1, 1, 2, 4],
            long_at: &[],
            long_value: &[],
        },
        targets: &[1, 0, 0, 2],
        labels: Codes {
            codes: &[0, 32769, 2, 3],
            fields: &[0, 1, 2, Label::LOADER],
            escape_at: &[],
            escape_label: &[],
        },
        weak_from: &[1],
        weak_to: &[0],
    };
    all(rt, graph)
}
