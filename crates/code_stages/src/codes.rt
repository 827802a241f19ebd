// The stage of the codes: buffers 7 and 8.
ghost use Rattle.std.specs.Prelude.{◌≡◌, length, ◌≤◌};
ghost use Rattle.rules.specs.Types.{built_says};
ghost use Rattle.labels.specs.Coding.{escaped_to};
ghost use Rattle.code_stages.specs.Stages.{Where, CodesReady, CodesCoded};

use crate::answers;
use labels::code::{ELEMENT, ESCAPED};
use rules::{Counts, Refusal};

// How many of the first n codes are escaped: two bytes an edge.
fn count_escaped(edge_codes: &[u16], n: usize) -> usize
    requires { n ≤ length edge_codes.now }
    ensures { result ≡ length (escaped_to edge_codes.now n) }
{
    edge_codes[..n]
        .iter()
        .filter(|code| **code % ELEMENT == ESCAPED)
        .count()
}

// The codes are written before their escapes are counted, so that each label is looked up once; where there is no room for codes, escapes are only counted.
pub fn codes_stage(
    v: Result<Counts, Refusal>,
    offsets: &[u64],
    labels: &[u32],
    names: usize,
    table: &[u16],
    escape_at: &mut [u64],
    escape_label: &mut [u32],
    edge_codes: &mut [u16],
) -> Result<Counts, Refusal>
    requires { Where (built_says v) (CodesReady names table.now offsets.now labels.now) }
    ensures { CodesCoded (built_says v) names table.now offsets.now labels.now
        edge_codes.old escape_at.old escape_label.old
        (built_says result) edge_codes.new escape_at.new escape_label.new }
{
    let c = v?;
    let edges = labels.len();
    if edge_codes.len() < edges {
        let rows = label_codes::count_escapes(offsets, labels, names, table);
        return Err(answers::first_short(
            rows,
            edges,
            escape_at.len(),
            escape_label.len(),
            edge_codes.len(),
            8,
        ));
    }
    label_codes::code_objects(offsets, labels, names, table, edge_codes);
    let rows = count_escaped(edge_codes, edges);
    if answers::is_short(rows, escape_at.len(), escape_label.len()) {
        return Err(Refusal::Room(7));
    }
    label_codes::write_escapes(labels, edge_codes, escape_at, escape_label);
    Ok(Counts { escapes: rows, ..c })
}
