// A field of each object of a list, into two lent columns. First the spans of all objects are read, then their codes: so the reads of one object do not wait for
// those of another. Codes are compared with the label's own, where there is one; whatever leaves a doubt is asked as a single question.
// The code of a label, the spans and the rows are found, told and written in crates of their own.
#![tactic(auto)]

mod codes;

ghost use Rattle.std.specs.Prelude.{◌≡◌, ◌≤◌, length};
ghost use Rattle.store_read.specs.Back.{blocked_in};
ghost use Rattle.rules.specs.Types.{each_field_says};
ghost use Rattle.rules.specs.Each.{each_left};
ghost use Rattle.ask_span.specs.Graph.{strong_in};
ghost use Rattle.ask_short.specs.Lean.{shortly};
ghost use Rattle.ask_each.specs.Listed.{Sole, Told, Asking, Onward, asks, Asked, left_each};

use ask_each_codes::SoleCode;
use ask_span::Strong;
use rules::ListError;

// Answers by the codes from a position on, up to the first that leaves a doubt: its position.
fn run(
    graph: Strong<'_>,
    objects: &[u32],
    label: u32,
    sole: SoleCode,
    from: usize,
    own_targets: &mut [u32],
    found: &mut [u8],
) -> usize
    requires objects_in_bounds { (length objects.now ≤ length own_targets.old) × (length objects.now ≤ length found.old) }
    requires sole { Sole graph.labels.fields.now label sole.code sole.most }
    requires fact { Asking (strong_in graph) label objects.now own_targets.old found.old from }
    ensures { Onward (strong_in graph.entry) label objects.now from own_targets.old found.old own_targets.new found.new result }
{
    for i in from..objects.len() {
        let start = own_targets[i] as usize;
        let count = found[i] as usize;
        let object = objects[i] as usize;
        let answer = codes::by_codes(graph, object, label, sole, start, count);
        let done = ask_each_rows::row(answer, i, own_targets, found);
        if !done {
            return i;
        }
    }
    objects.len()
}

// The answers of the list in order, over the spans: by the codes, or else as the single question, up to the first that is refused.
fn ask(
    graph: Strong<'_>,
    objects: &[u32],
    label: u32,
    sole: SoleCode,
    own_targets: &mut [u32],
    found: &mut [u8],
) -> Result<usize, ListError>
    requires objects_in_bounds { (length objects.now ≤ length own_targets.old) × (length objects.now ≤ length found.old) }
    requires sole { Sole graph.labels.fields.now label sole.code sole.most }
    requires told { Told (shortly (blocked_in graph.offsets)) (length graph.labels.codes.now) (length graph.targets.now) objects.now own_targets.old found.old 0 (length objects.now) }
    ensures { Asked (asks (strong_in graph.entry) label) objects.now (each_field_says result) own_targets.old found.old own_targets.new found.new }
{
    let mut i = 0;
    while i < objects.len() {
        let at = run(graph, objects, label, sole, i, own_targets, found);
        if at < objects.len() {
            let object = objects[at] as usize;
            let answer = ask_field::field(graph, object, label);
            let done = ask_each_rows::row(answer, at, own_targets, found);
            if done {
                i = at + 1;
            } else {
                return ask_each_rows::refusal(answer, at);
            }
        } else {
            i = at;
        }
    }
    Ok(i)
}

// A field of each object of a list: its target and the mark 1, or 0 and 0 where it has none, at the object's position in the list. A refusal gives the position,
// and leaves zeros.
pub fn field(
    graph: Strong<'_>,
    objects: &[u32],
    label: u32,
    own_targets: &mut [u32],
    found: &mut [u8],
) -> Result<usize, ListError>
    ensures { left_each (each_field_says result) own_targets.new found.new ≡ each_left (asks (strong_in graph.entry) label) objects.now (length own_targets.old) (length found.old) }
{
    let lacks = ask_each_rows::lacks_room(objects.len(), own_targets.len(), found.len());
    if lacks {
        return ask_each_rows::settle(Err(ListError::Room(12)), own_targets, found);
    }
    let end = ask_each_spans::limit(graph.labels.codes.len(), graph.targets.len());
    ask_each_spans::spans(
        graph.offsets.bases,
        graph.offsets.short,
        end,
        objects,
        own_targets,
        found,
    );
    let code = ask_each_codes::sole(graph.labels.fields, label, objects.len());
    let answer = ask(graph, objects, label, code, own_targets, found);
    ask_each_rows::settle(answer, own_targets, found)
}
