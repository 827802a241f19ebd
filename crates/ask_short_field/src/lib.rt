// The target of an object's field, and of its weak reference, by the short columns alone, as `ask_short` answers the other questions.
#![tactic(auto)]

ghost use Rattle.std.specs.Prelude.{◌≡◌};
ghost use Rattle.rules.specs.Types.{field_says, referent_says};
ghost use Rattle.ask_field.specs.Sought.{field_found, referent_found};
ghost use Rattle.ask_short.specs.Lean.{lean_in, lean_with};

use ask_short::Lean;
use labels::Unread;
use rules::ReadError;

// The field that both questions ask, compiled into each: one that is called has its columns written to memory and read back. An escape cannot be read here.
#[inline(always)]
fn found(graph: Lean<'_>, object: usize, label: u32) -> Result<Option<u32>, ReadError>
    ensures { field_says result ≡ field_found (lean_in graph.entry) object label }
{
    let at = graph.span(object)?;
    let sought = ask_field::seek(
        graph.codes,
        at.start,
        at.end - at.start,
        graph.fields,
        label,
        |_| Err(Unread),
    );
    ask_field::sought_answer(graph.targets, at.start, sought, object)
}

// The target of a field of an object: of its first edge whose coarse label matches.
pub fn field(graph: Lean<'_>, object: usize, label: u32) -> Result<Option<u32>, ReadError>
    ensures { field_says result ≡ field_found (lean_in graph.entry) object label }
{
    found(graph, object, label)
}

// The target of a field of an object, or where it has none its smallest weak target. It does not ask `field`: a function of one caller is compiled into its
// caller.
pub fn referent(
    graph: Lean<'_>,
    weak_from: &[u32],
    weak_to: &[u32],
    object: usize,
    label: u32,
) -> Result<Option<u32>, ReadError>
    ensures { referent_says result ≡ referent_found (lean_with graph.entry weak_from.now weak_to.now) object label }
{
    match found(graph, object, label)? {
        Some(t) => Ok(Some(t)),
        None => ask_field::first_weak(graph.short, weak_from, weak_to, object),
    }
}
