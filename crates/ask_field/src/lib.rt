// The target of an object's field, and of its weak reference where it has no such field.
#![tactic(auto)]

ghost use Rattle.std.specs.Prelude.{◌≡◌, ℕ, [], ◌+◌, ◌<◌, ◌≤◌, length};
ghost use Rattle.columns.specs.Lists.{◌!◌};
ghost use Rattle.rules.specs.Types.{array_element_label, field_says, referent_says};
ghost use Rattle.labels.specs.Reading.{coded_of};
ghost use Rattle.ask_span.specs.Reading.{weak_rows_of};
ghost use Rattle.ask_span.specs.Graph.{graph_in, strong_in};
ghost use Rattle.ask_field.specs.Sought.{first_sought, element_at, Rows, with_rows, Unsaid, Reads, decoded, sought_in, sought_target, field_found, first_weak, referent_found};

use ask_span::{Graph, Strong};
use labels::Unread;
use labels::code::{ELEMENT, ESCAPED};
use rules::{Label, ReadError};

// The first edge of an element: its number among the object's.
pub fn first_element(edge_codes: &[u16], start: usize, count: usize) -> Option<usize>
    requires { start + count ≤ length edge_codes.now }
    ensures { result ≡ first_sought (element_at (coded_of edge_codes.now [] [] []) start) count }
{
    for k in 0..count {
        let edge = start + k;
        if ELEMENT <= edge_codes[edge] {
            return Some(k);
        }
    }
    None
}

// How many codes say a field by themselves: those of the fields, below the escape.
pub fn plain_codes(fields: &[u32]) -> u16
    ensures { (result ≤ length fields.now) × (result ≤ 32767) × (result < length fields.now → result ≡ 32767) }
{
    if fields.len() < ESCAPED as usize {
        return fields.len() as u16;
    }
    ESCAPED
}

// The first edge with a field's label, unread where an edge before it cannot be read. Most codes say their field by one look into the fields, and elements are
// passed over; what is left `read` reads.
fn first_label<R: Fn(usize) -> Result<Label, Unread>>(
    edge_codes: &[u16],
    start: usize,
    count: usize,
    fields: &[u32],
    label: u32,
    read: R,
) -> Result<Option<usize>, Unread>
    requires count_in_bounds { (start + count ≤ length edge_codes.now) × (label < array_element_label) }
    requires may_read { (edge : ℕ) → Unsaid edge_codes.now fields.now edge → R.pre read edge }
    ensures { (rows : Rows) → Reads (R.post read) edge_codes.now fields.now rows
        → result ≡ decoded (with_rows edge_codes.now fields.now rows) start count label }
{
    let most = plain_codes(fields);
    for k in 0..count {
        let edge = start + k;
        let code = edge_codes[edge];
        if code < most {
            let l = fields[code as usize];
            if l == label {
                return Ok(Some(k));
            }
            if Label::ARRAY_ELEMENT <= l {
                return Err(Unread);
            }
        } else if code < ELEMENT {
            let said = read(edge)?;
            if said.0 == label {
                return Ok(Some(k));
            }
        }
    }
    Ok(None)
}

// The first edge whose coarse label matches. Where a code does not say its label by itself, `read` reads it.
pub fn seek<R: Fn(usize) -> Result<Label, Unread>>(
    edge_codes: &[u16],
    start: usize,
    count: usize,
    fields: &[u32],
    label: u32,
    read: R,
) -> Result<Option<usize>, Unread>
    requires count_in_bounds { start + count ≤ length edge_codes.now }
    requires may_read { (edge : ℕ) → Unsaid edge_codes.now fields.now edge → R.pre read edge }
    ensures { (rows : Rows) → Reads (R.post read) edge_codes.now fields.now rows
        → result ≡ sought_in (with_rows edge_codes.now fields.now rows) start count label }
{
    if label == Label::ARRAY_ELEMENT {
        return Ok(first_element(edge_codes, start, count));
    }
    if Label::ARRAY_ELEMENT <= label {
        return Ok(None);
    }
    first_label(edge_codes, start, count, fields, label, read)
}

// What a field holds, by the first edge that matches among those from `start` on.
pub fn sought_answer(
    targets: &[u32],
    start: usize,
    sought: Result<Option<usize>, Unread>,
    object: usize,
) -> Result<Option<u32>, ReadError>
    requires { (k : ℕ) → sought ≡ Ok (Some k) → start + k < length targets.now }
    ensures { field_says result ≡ sought_target targets.now start object sought }
{
    match sought {
        Ok(Some(k)) => Ok(Some(targets[start + k])),
        Ok(None) => Ok(None),
        Err(_) => Err(ReadError::Columns(object)),
    }
}

// The target of a field of an object: of its first edge whose coarse label matches.
pub fn field(graph: Strong<'_>, object: usize, label: u32) -> Result<Option<u32>, ReadError>
    ensures { field_says result ≡ field_found (strong_in graph.entry) object label }
{
    let at = graph.span(object)?;
    let sought = seek(
        graph.labels.codes,
        at.start,
        at.end - at.start,
        graph.labels.fields,
        label,
        |edge| graph.labels.coarse(edge),
    );
    sought_answer(graph.targets, at.start, sought, object)
}

// The first of an object's weak targets: pairs are sorted, so that it is the smallest.
pub fn first_weak(
    short: &[u16],
    weak_from: &[u32],
    weak_to: &[u32],
    object: usize,
) -> Result<Option<u32>, ReadError>
    ensures { referent_says result ≡ first_weak (weak_rows_of (length short.now) weak_from.now weak_to.now object) weak_to.now }
{
    let at = ask_span::weak_referents(short, weak_from, weak_to, object)?;
    if at.end <= at.start {
        return Ok(None);
    }
    Ok(Some(weak_to[at.start]))
}

// The target of a field of an object, or where it has none its smallest weak target.
pub fn referent(graph: Graph<'_>, object: usize, label: u32) -> Result<Option<u32>, ReadError>
    ensures { referent_says result ≡ referent_found (graph_in graph.entry) object label }
{
    match field(graph.strong(), object, label)? {
        Some(t) => Ok(Some(t)),
        None => first_weak(graph.offsets.short, graph.weak_from, graph.weak_to, object),
    }
}
