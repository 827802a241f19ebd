// The code that alone says a label, and the first of an object's edges that has it. `ask_each` asks a list by these.
#![tactic(auto)]

ghost use Rattle.std.specs.Prelude.{◌+◌, ◌<◌, ◌≤◌, length};
ghost use Rattle.rules.specs.Types.{array_element_label};
ghost use Rattle.ask_field.specs.Sought.{decoded, sought_in};
ghost use Rattle.ask_short.specs.Lean.{plain_of};
ghost use Rattle.ask_each_codes.specs.Codes.{Sole, Quick};

use labels::Unread;
use labels::code::ELEMENT;
use rules::Label;
use std::num::wrapping_add_u16;

// The one code that says the label asked, or 65,536 where no code does. Codes below `most` say their field by themselves.
#[derive(Clone, Copy)]
pub struct SoleCode {
    pub code: u32,
    pub most: u16,
}

// The label's code, by one look at each field. Where two fields have the label, one has an element's, or few objects are asked, no code is trusted.
pub fn sole(fields: &[u32], label: u32, asked: usize) -> SoleCode
    ensures { Sole fields.now label result.code result.most }
{
    if asked < fields.len() / 16 {
        return SoleCode {
            code: 65536,
            most: 0,
        };
    }
    let most = ask_field::plain_codes(fields);
    let mut code = 65536;
    for v in 0..most {
        let l = fields[v as usize];
        if Label::ARRAY_ELEMENT <= l {
            return SoleCode {
                code: 65536,
                most: 0,
            };
        }
        if l == label {
            if code < 65536 {
                return SoleCode {
                    code: 65536,
                    most: 0,
                };
            }
            code = v as u32;
        }
    }
    SoleCode { code, most }
}

// The first edge with the label's code. A code that says no field by itself, and no element, leaves a doubt: with the two halves of all codes exchanged, elements
// come first, then such fields, so that one test tells.
fn first_code(
    edge_codes: &[u16],
    start: usize,
    count: usize,
    fields: &[u32],
    label: u32,
    sole: SoleCode,
) -> Result<Option<usize>, Unread>
    requires count_in_bounds { (start + count ≤ length edge_codes.now) × (label < array_element_label) }
    requires sole { Sole fields.now label sole.code sole.most }
    ensures { Quick result (decoded (plain_of edge_codes.now fields.now) start count label) }
{
    let asked = sole.code;
    let odd = sole.most + ELEMENT;
    for k in 0..count {
        let edge = start + k;
        let code = edge_codes[edge];
        if code as u32 == asked {
            return Ok(Some(k));
        }
        if odd <= wrapping_add_u16(code, ELEMENT) {
            return Err(Unread);
        }
    }
    Ok(None)
}

// The first edge whose coarse label matches, by the codes alone; unread where they leave a doubt.
pub fn seek(
    edge_codes: &[u16],
    start: usize,
    count: usize,
    fields: &[u32],
    label: u32,
    sole: SoleCode,
) -> Result<Option<usize>, Unread>
    requires count_in_bounds { start + count ≤ length edge_codes.now }
    requires sole { Sole fields.now label sole.code sole.most }
    ensures { Quick result (sought_in (plain_of edge_codes.now fields.now) start count label) }
{
    if label == Label::ARRAY_ELEMENT {
        return Ok(ask_field::first_element(edge_codes, start, count));
    }
    if Label::ARRAY_ELEMENT <= label {
        return Ok(None);
    }
    first_code(edge_codes, start, count, fields, label, sole)
}
