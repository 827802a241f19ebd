// The exact label of an edge far behind the object's first (M-106): only the codes back to the nearest escaped element are read. Their gaps are added on the
// way back, so that coming forward again is one addition.
#![tactic(auto)]

ghost use Rattle.std.specs.Prelude.{◌≡◌, ◌+◌, ◌≤◌, ◌<◌, length};
ghost use Rattle.labels.specs.Reading.{read_says, coded_in, code_back, element_back, next_of};
ghost use Rattle.ask_late.specs.Late.{late_back, late_next, after_steps, steps_of, block_steps};

use labels::code::ELEMENT;
use labels::read::read_code;
use labels::{Codes, Unread};
use rules::Label;

// The code of an escaped element.
const ESCAPED_ELEMENT: u16 = 65535;

// So many edges are looked at together, where all are elements that are not escaped.
const BLOCK: usize = 32;

// What any other code counts as: more than a block of such elements comes to.
const OTHER: u32 = 67108864;

// How far an element is behind the one before it: its gap and one step more.
fn steps_of(code: u16) -> u32
    ensures { (result ≡ steps_of code) × (result ≤ 67108864) }
{
    if code < ELEMENT {
        return OTHER;
    }
    if code == ESCAPED_ELEMENT {
        return OTHER;
    }
    (code - 32767) as u32
}

// The steps of a block. All its codes are looked at, without an early exit: so the pass takes many at once.
fn block_steps(edge_codes: &[u16], from: usize) -> u32
    requires { from + 32 ≤ length edge_codes.now }
    ensures { result ≡ block_steps edge_codes.now from }
{
    let mut sum = 0;
    for i in 0..BLOCK {
        sum += steps_of(edge_codes[from + i]);
    }
    sum
}

// The label of an element by its index.
fn element(index: u32) -> Result<Label, Unread>
    ensures { read_says result ≡ element_back index }
{
    if Label::ARRAY_ELEMENT <= index {
        return Err(Unread);
    }
    Ok(Label::element(index))
}

// The label that a code says where the edges before it do not matter: a field's, or an escaped element's.
fn alone(code: u16, edge: u64, coded: Codes<'_>) -> Result<Label, Unread>
    ensures { read_says result ≡ code_back coded.entry.fields.now coded.entry.escape_at.now coded.entry.escape_label.now edge 0 code }
{
    read_code(
        code,
        edge,
        0,
        coded.fields,
        coded.escape_at,
        coded.escape_label,
    )
}

// The label of the element so many steps behind an escaped one, whose row says its index.
fn behind_escape(edge: u64, steps: u32, coded: Codes<'_>) -> Result<Label, Unread>
    requires { steps ≤ 2147483648 }
    ensures { read_says result ≡ after_steps steps (next_of 0 (code_back coded.entry.fields.now coded.entry.escape_at.now coded.entry.escape_label.now edge 0 65535)) }
{
    let row = alone(ESCAPED_ELEMENT, edge, coded)?;
    element(row.0 - Label::ARRAY_ELEMENT + steps)
}

// The label of the element so many steps behind the k-th edge of the object whose edges begin at `start`. A field between elements takes no step, but has to
// be read.
fn back(coded: Codes<'_>, start: usize, k: usize, first: u32) -> Result<Label, Unread>
    requires { (start + k ≤ length coded.codes.now) × ((1 ≤ first) × (first ≤ 2147483648)) }
    ensures { read_says result ≡ after_steps first (late_next (coded_in coded.entry) start k) }
{
    let mut steps = first;
    for left in (0..k).rev() {
        let edge = start + left;
        let code = coded.codes[edge];
        let more = steps_of(code);
        if more < OTHER {
            steps += more;
            if Label::ARRAY_ELEMENT < steps {
                return Err(Unread);
            }
        } else if code == ESCAPED_ELEMENT {
            return behind_escape(edge as u64, steps, coded);
        } else {
            alone(code, edge as u64, coded)?;
        }
    }
    element(steps - 1)
}

// The same, a block at a time as long as that can be done.
fn back_by_blocks(coded: Codes<'_>, start: usize, k: usize, first: u32) -> Result<Label, Unread>
    requires { (start + k ≤ length coded.codes.now) × ((1 ≤ first) × (first ≤ 2147483648)) }
    ensures { read_says result ≡ after_steps first (late_next (coded_in coded.entry) start k) }
{
    let mut steps = first;
    let mut left = k;
    while BLOCK <= left {
        let more = block_steps(coded.codes, start + (left - BLOCK));
        if OTHER <= more {
            return back(coded, start, left, steps);
        }
        steps += more;
        if Label::ARRAY_ELEMENT < steps {
            return Err(Unread);
        }
        left -= BLOCK;
    }
    back(coded, start, left, steps)
}

// An edge's label: the k-th of the object whose edges begin at `start`. A field's and an escaped element's stand for themselves.
pub fn exact(coded: Codes<'_>, start: usize, k: usize) -> Result<Label, Unread>
    requires { start + k < length coded.codes.now }
    ensures { read_says result ≡ late_back (coded_in coded.entry) start k }
{
    let edge = start + k;
    let code = coded.codes[edge];
    let steps = steps_of(code);
    if steps < OTHER {
        return back_by_blocks(coded, start, k, steps);
    }
    alone(code, edge as u64, coded)
}
