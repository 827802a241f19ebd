// What is written of a build: the counts, the account, every column lent, the answers, and the incoming side; or the refusal, and whether all that was lent is zero.
use crate::answers;
use crate::case::Numbers;
use ask_span::Graph;
use case_text::arrays::{blocks, offsets};
use case_text::column::used;
use case_text::zero::zero;
use case_text::{column, form};
use labels::Codes;
use rules::{Counts, Refusal};
use std::io;
use store::Offsets;

// Document 01's number of a refusal, and its place.
fn refused(rt: &impl Print, r: Refusal) -> io::Result<()> {
    let says = answer_builds::built(Err(r));
    form::fill(rt, b"  refused: # at #\n", &[says[1], says[2]])
}

fn counts(rt: &impl Print, c: Counts) -> io::Result<()> {
    form::fill(
        rt,
        b"  done: edges #, weak #, roots #, long #, fields #, escapes #, dangling #\n",
        &[
            c.edges as u64,
            c.weak as u64,
            c.roots as u64,
            c.long as u64,
            c.fields as u64,
            c.escapes as u64,
            c.dangling,
        ],
    )
}

// What is the same under every policy: edges and weak pairs together, and the ids that no object has.
fn references(rt: &impl Print, c: Counts) -> io::Result<()> {
    let edges = c.edges as u64;
    let weak = c.weak as u64;
    form::fill(
        rt,
        b"  references: edges # + weak # = #, dangling #\n",
        &[edges, weak, edges.wrapping_add(weak), c.dangling],
    )
}

// A kind's edges, weak pairs and missing ids.
fn kind(rt: &impl Print, name: &str, row: [u64; 3]) -> io::Result<()> {
    print::word(rt, name.as_bytes())?;
    form::fill(rt, b" # # #", &row)
}

fn account_of(rt: &impl Print, account: [[u64; 3]; 4]) -> io::Result<()> {
    kind(rt, "  account: slot", account[0])?;
    kind(rt, ", element", account[1])?;
    kind(rt, ", static", account[2])?;
    kind(rt, ", loader", account[3])?;
    print::word(rt, b"\n")?;
    Ok(())
}

// Whether nothing is left of the edges,
fn zero_edges(
    targets: &[u32],
    labels: &[u32],
    weak_from: &[u32],
    weak_to: &[u32],
    roots: &[u32],
    working: &[u64],
) -> bool {
    zero(targets)
        && zero(labels)
        && zero(weak_from)
        && zero(weak_to)
        && zero(roots)
        && zero(working)
}

// of the offsets and fields,
fn zero_offsets(
    bases: &[u64],
    short: &[u16],
    long_at: &[u32],
    long_value: &[u64],
    fields: &[u32],
    table: &[u16],
) -> bool {
    zero(bases) && zero(short) && zero(long_at) && zero(long_value) && zero(fields) && zero(table)
}

// and of the codes.
fn zero_codes(
    escape_at: &[u64],
    escape_label: &[u32],
    codes: &[u16],
    counting: &[u64],
    ranking: &[u64],
) -> bool {
    zero(escape_at) && zero(escape_label) && zero(codes) && zero(counting) && zero(ranking)
}

fn edge_columns(
    rt: &impl Print,
    targets: &[u32],
    labels: &[u32],
    weak_from: &[u32],
    weak_to: &[u32],
    roots: &[u32],
    working: &[u64],
) -> io::Result<()> {
    column::of(rt, "  targets", targets)?;
    column::of(rt, "  labels", labels)?;
    column::of(rt, "  weak_from", weak_from)?;
    column::of(rt, "  weak_to", weak_to)?;
    column::of(rt, "  roots", roots)?;
    column::of(rt, "  working", working)
}

// The used parts of the columns of a graph of so many objects.
fn used_parts<'a>(
    c: Counts,
    objects: usize,
    targets: &'a [u32],
    weak_from: &'a [u32],
    weak_to: &'a [u32],
    bases: &'a [u64],
    short: &'a [u16],
    long_at: &'a [u32],
    long_value: &'a [u64],
    fields: &'a [u32],
    escape_at: &'a [u64],
    escape_label: &'a [u32],
    codes: &'a [u16],
) -> Graph<'a> {
    Graph {
        offsets: Offsets {
            bases: used(bases, blocks(objects)),
            short: used(short, offsets(objects)),
            long_at: used(long_at, c.long),
            long_value: used(long_value, c.long),
        },
        targets: used(targets, c.edges),
        labels: Codes {
            codes: used(codes, c.edges),
            fields: used(fields, c.fields),
            escape_at: used(escape_at, c.escapes),
            escape_label: used(escape_label, c.escapes),
        },
        weak_from: used(weak_from, c.weak),
        weak_to: used(weak_to, c.weak),
    }
}

// After an acceptance every column is written whole, the questions are asked, and the graph is inverted.
fn done(
    rt: &impl Print,
    c: Counts,
    halves: &[u32],
    cuts: &[usize],
    n: Numbers,
    targets: &[u32],
    labels: &[u32],
    weak_from: &[u32],
    weak_to: &[u32],
    roots: &[u32],
    working: &[u64],
    account: [[u64; 3]; 4],
    bases: &[u64],
    short: &[u16],
    long_at: &[u32],
    long_value: &[u64],
    fields: &[u32],
    table: &[u16],
    escape_at: &[u64],
    escape_label: &[u32],
    codes: &[u16],
    counting: &[u64],
    ranking: &[u64],
) -> io::Result<()> {
    counts(rt, c)?;
    if n.several {
        references(rt, c)?;
    }
    account_of(rt, account)?;
    edge_columns(rt, targets, labels, weak_from, weak_to, roots, working)?;
    column::offset_columns(rt, bases, short, long_at, long_value, fields, table)?;
    column::code_columns(rt, escape_at, escape_label, codes, counting, ranking)?;
    let graph = used_parts(
        c,
        n.objects,
        targets,
        weak_from,
        weak_to,
        bases,
        short,
        long_at,
        long_value,
        fields,
        escape_at,
        escape_label,
        codes,
    );
    answers::all(rt, halves, cuts, n.objects, graph)?;
    case_incoming::all(rt, n.objects, graph.strong())
}

pub fn outcome(
    rt: &impl Print,
    answer: Result<Counts, Refusal>,
    halves: &[u32],
    cuts: &[usize],
    n: Numbers,
    targets: &[u32],
    labels: &[u32],
    weak_from: &[u32],
    weak_to: &[u32],
    roots: &[u32],
    working: &[u64],
    account: [[u64; 3]; 4],
    bases: &[u64],
    short: &[u16],
    long_at: &[u32],
    long_value: &[u64],
    fields: &[u32],
    table: &[u16],
    escape_at: &[u64],
    escape_label: &[u32],
    codes: &[u16],
    counting: &[u64],
    ranking: &[u64],
) -> io::Result<()> {
    let r = match answer {
        Ok(c) => {
            return done(
                rt,
                c,
                halves,
                cuts,
                n,
                targets,
                labels,
                weak_from,
                weak_to,
                roots,
                working,
                account,
                bases,
                short,
                long_at,
                long_value,
                fields,
                table,
                escape_at,
                escape_label,
                codes,
                counting,
                ranking,
            );
        }
        Err(r) => r,
    };
    refused(rt, r)?;
    // Everything that was lent is zero.
    if zero_edges(targets, labels, weak_from, weak_to, roots, working)
        && account.iter().all(|row| zero(row))
        && zero_offsets(bases, short, long_at, long_value, fields, table)
        && zero_codes(escape_at, escape_label, codes, counting, ranking)
    {
        print::word(rt, b"  left zero\n")?;
    } else {
        print::word(rt, b"  left NOT zero\n")?;
    }
    Ok(())
}
