// The questions, over the used parts of a graph's columns; nothing is written but the answer.
ghost use Rattle.std.specs.Prelude.{◌≡◌, length};
ghost use Rattle.columns.specs.Loans.{now_of};
ghost use Rattle.rules.specs.Tables.{offset_columns};
ghost use Rattle.rules.specs.Each.{each_left};
ghost use Rattle.ask_span.specs.Reading.{span_of, count_of, weak_rows_of};
ghost use Rattle.ask_span.specs.Graph.{graph_columns, edge_columns};
ghost use Rattle.ask_label.specs.Labelled.{coarse_at};
ghost use Rattle.ask_field.specs.Sought.{field_found, referent_found};
ghost use Rattle.ask_short.specs.Lean.{short_of, lean_columns, lean_edges, label_found};
ghost use Rattle.ask_edges.specs.Object.{edges_found};
ghost use Rattle.ask_each.specs.Listed.{asks};
ghost use Rattle.ask_short_edges.specs.Replied.{EdgesReplied};
ghost use Rattle.answer_numbers.specs.Told.{told};
ghost use Rattle.answer_replies.specs.Reply.{span_number, reply_of};
ghost use Rattle.yokefathom.specs.Calls.{EdgesTold, EachTold, ExactTold, LabelTold};

use super::lent;

// Where the edges of an object sit in the target column.
#[unsafe(no_mangle)]
pub extern "C" fn yokefathom_span(
    object: usize,
    bases: &[u64],
    short: &[u16],
    long_at: &[u32],
    long_value: &[u64],
    edge_codes: &[u16],
    targets: &[u32],
    answer: &mut [u64; 4],
)
    ensures { answer.new ≡ told 4 (span_of (offset_columns now_of bases short long_at long_value) (length edge_codes.now) (length targets.now) object) }
{
    let offsets = lent::offsets(bases, short, long_at, long_value);
    let found = ask_span::span_within(offsets, edge_codes.len(), targets.len(), object);
    *answer = answer_numbers::numbers(found);
}

// How many edges an object has.
#[unsafe(no_mangle)]
pub extern "C" fn yokefathom_edge_count(
    object: usize,
    bases: &[u64],
    short: &[u16],
    long_at: &[u32],
    long_value: &[u64],
    edge_codes: &[u16],
    targets: &[u32],
    answer: &mut [u64; 4],
)
    ensures { answer.new ≡ told 4 (count_of (span_of (offset_columns now_of bases short long_at long_value) (length edge_codes.now) (length targets.now) object)) }
{
    let offsets = lent::offsets(bases, short, long_at, long_value);
    let found = ask_span::count_within(offsets, edge_codes.len(), targets.len(), object);
    *answer = answer_numbers::numbers(found);
}

// The rows of an object's weak pairs.
#[unsafe(no_mangle)]
pub extern "C" fn yokefathom_weak_referents(
    object: usize,
    short: &[u16],
    weak_from: &[u32],
    weak_to: &[u32],
    answer: &mut [u64; 4],
)
    ensures { answer.new ≡ told 4 (weak_rows_of (length short.now) weak_from.now weak_to.now object) }
{
    let found = ask_span::weak_referents(short, weak_from, weak_to, object);
    *answer = answer_numbers::numbers(found);
}

// The field label of an edge of an object, or just `ARRAY_ELEMENT` for an element.
#[unsafe(no_mangle)]
pub extern "C" fn yokefathom_coarse_label(
    object: usize,
    edge: usize,
    bases: &[u64],
    short: &[u16],
    long_at: &[u32],
    long_value: &[u64],
    edge_codes: &[u16],
    targets: &[u32],
    fields: &[u32],
    escape_at: &[u64],
    escape_label: &[u32],
    answer: &mut [u64; 4],
)
    ensures { let graph = edge_columns now_of bases short long_at long_value edge_codes targets fields escape_at escape_label in
        answer.new ≡ told 4 (coarse_at graph object edge) }
{
    let graph = lent::strong(
        bases,
        short,
        long_at,
        long_value,
        edge_codes,
        targets,
        fields,
        escape_at,
        escape_label,
    );
    let found = ask_label::coarse_label(graph, object, edge);
    *answer = answer_numbers::numbers(found);
}

// The label of an edge of an object, an element's with its index.
#[unsafe(no_mangle)]
pub extern "C" fn yokefathom_exact_label(
    object: usize,
    edge: usize,
    bases: &[u64],
    short: &[u16],
    long_at: &[u32],
    long_value: &[u64],
    edge_codes: &[u16],
    targets: &[u32],
    fields: &[u32],
    escape_at: &[u64],
    escape_label: &[u32],
    answer: &mut [u64; 4],
)
    ensures { let graph = edge_columns now_of bases short long_at long_value edge_codes targets fields escape_at escape_label in
        ExactTold graph object edge answer.new }
{
    let graph = lent::strong(
        bases,
        short,
        long_at,
        long_value,
        edge_codes,
        targets,
        fields,
        escape_at,
        escape_label,
    );
    let found = ask_label::exact_label(graph, object, edge);
    *answer = answer_numbers::numbers(found);
}

// The exact label of an object's first edge to a target.
#[unsafe(no_mangle)]
pub extern "C" fn yokefathom_label_of(
    object: usize,
    target: u32,
    bases: &[u64],
    short: &[u16],
    long_at: &[u32],
    long_value: &[u64],
    edge_codes: &[u16],
    targets: &[u32],
    fields: &[u32],
    escape_at: &[u64],
    escape_label: &[u32],
    answer: &mut [u64; 4],
)
    ensures { let graph = edge_columns now_of bases short long_at long_value edge_codes targets fields escape_at escape_label in
        LabelTold graph object target answer.new }
{
    let graph = lent::strong(
        bases,
        short,
        long_at,
        long_value,
        edge_codes,
        targets,
        fields,
        escape_at,
        escape_label,
    );
    let found = ask_label::label_of(graph, object, target);
    *answer = answer_numbers::numbers(found);
}

// The target of a field of an object.
#[unsafe(no_mangle)]
pub extern "C" fn yokefathom_field(
    object: usize,
    label: u32,
    bases: &[u64],
    short: &[u16],
    long_at: &[u32],
    long_value: &[u64],
    edge_codes: &[u16],
    targets: &[u32],
    fields: &[u32],
    escape_at: &[u64],
    escape_label: &[u32],
    answer: &mut [u64; 4],
)
    ensures { let graph = edge_columns now_of bases short long_at long_value edge_codes targets fields escape_at escape_label in
        answer.new ≡ told 4 (field_found graph object label) }
{
    let graph = lent::strong(
        bases,
        short,
        long_at,
        long_value,
        edge_codes,
        targets,
        fields,
        escape_at,
        escape_label,
    );
    let found = ask_field::field(graph, object, label);
    *answer = answer_numbers::numbers(found);
}

// The target of a field of an object, or where it has none its smallest weak target.
#[unsafe(no_mangle)]
pub extern "C" fn yokefathom_referent(
    object: usize,
    label: u32,
    bases: &[u64],
    short: &[u16],
    long_at: &[u32],
    long_value: &[u64],
    edge_codes: &[u16],
    targets: &[u32],
    fields: &[u32],
    escape_at: &[u64],
    escape_label: &[u32],
    weak_from: &[u32],
    weak_to: &[u32],
    answer: &mut [u64; 4],
)
    ensures { let graph = graph_columns now_of bases short long_at long_value edge_codes targets fields escape_at escape_label weak_from weak_to in
        answer.new ≡ told 4 (referent_found graph object label) }
{
    let graph = lent::graph(
        bases,
        short,
        long_at,
        long_value,
        edge_codes,
        targets,
        fields,
        escape_at,
        escape_label,
        weak_from,
        weak_to,
    );
    let found = ask_field::referent(graph, object, label);
    *answer = answer_numbers::numbers(found);
}

// All edges of an object, their targets and exact labels from the front of the columns lent. Zeros behind them; or a refusal, and both columns zero.
#[unsafe(no_mangle)]
pub extern "C" fn yokefathom_object_edges(
    object: usize,
    bases: &[u64],
    short: &[u16],
    long_at: &[u32],
    long_value: &[u64],
    edge_codes: &[u16],
    targets: &[u32],
    fields: &[u32],
    escape_at: &[u64],
    escape_label: &[u32],
    own_targets: &mut [u32],
    own_labels: &mut [u32],
    answer: &mut [u64; 4],
)
    ensures { let graph = edge_columns now_of bases short long_at long_value edge_codes targets fields escape_at escape_label in
        EdgesTold (edges_found graph object (length own_targets.old) (length own_labels.old)) answer.new own_targets.new own_labels.new }
{
    let graph = lent::strong(
        bases,
        short,
        long_at,
        long_value,
        edge_codes,
        targets,
        fields,
        escape_at,
        escape_label,
    );
    let found = ask_edges::object_edges(graph, object, own_targets, own_labels);
    *answer = answer_numbers::numbers(found);
}

// A field of each object of a list: targets and marks from the front of the columns lent, zeros behind them; or a refusal at a position, and both columns zero.
#[unsafe(no_mangle)]
pub extern "C" fn yokefathom_field_of_each(
    objects: &[u32],
    label: u32,
    bases: &[u64],
    short: &[u16],
    long_at: &[u32],
    long_value: &[u64],
    edge_codes: &[u16],
    targets: &[u32],
    fields: &[u32],
    escape_at: &[u64],
    escape_label: &[u32],
    own_targets: &mut [u32],
    found: &mut [u8],
    answer: &mut [u64; 4],
)
    ensures { let graph = edge_columns now_of bases short long_at long_value edge_codes targets fields escape_at escape_label in
        EachTold (each_left (asks graph label) objects.now (length own_targets.old) (length found.old)) answer.new own_targets.new found.new }
{
    let graph = lent::strong(
        bases,
        short,
        long_at,
        long_value,
        edge_codes,
        targets,
        fields,
        escape_at,
        escape_label,
    );
    let asked = ask_each::field(graph, objects, label, own_targets, found);
    *answer = answer_numbers::numbers(asked);
}

// The questions by the short columns alone, in one number. Where that is 0 the call above is to be asked.
#[unsafe(no_mangle)]
pub extern "C" fn yokefathom_lean_span(
    object: usize,
    bases: &[u64],
    short: &[u16],
    codes: usize,
    targets: usize,
) -> u64
    ensures { result ≡ span_number (span_of (short_of bases.now short.now) codes targets object) }
{
    let found = ask_short::span(bases, short, codes, targets, object);
    answer_replies::span_number(found)
}

#[unsafe(no_mangle)]
pub extern "C" fn yokefathom_lean_label_of(
    object: usize,
    target: u32,
    bases: &[u64],
    short: &[u16],
    edge_codes: &[u16],
    targets: &[u32],
    fields: &[u32],
) -> u64
    ensures { result ≡ reply_of (label_found (lean_edges now_of bases short edge_codes targets fields) object target) }
{
    let graph = lent::lean(bases, short, edge_codes, targets, fields);
    let found = graph.label_of(object, target);
    answer_replies::label_reply(found)
}

#[unsafe(no_mangle)]
pub extern "C" fn yokefathom_lean_field(
    object: usize,
    label: u32,
    bases: &[u64],
    short: &[u16],
    edge_codes: &[u16],
    targets: &[u32],
    fields: &[u32],
) -> u64
    ensures { result ≡ reply_of (field_found (lean_edges now_of bases short edge_codes targets fields) object label) }
{
    let graph = lent::lean(bases, short, edge_codes, targets, fields);
    let found = ask_short_field::field(graph, object, label);
    answer_replies::target_reply(found)
}

#[unsafe(no_mangle)]
pub extern "C" fn yokefathom_lean_referent(
    object: usize,
    label: u32,
    bases: &[u64],
    short: &[u16],
    edge_codes: &[u16],
    targets: &[u32],
    fields: &[u32],
    weak_from: &[u32],
    weak_to: &[u32],
) -> u64
    ensures { result ≡ reply_of (referent_found (lean_columns now_of bases short edge_codes targets fields weak_from weak_to) object label) }
{
    let graph = lent::lean(bases, short, edge_codes, targets, fields);
    let found = ask_short_field::referent(graph, weak_from, weak_to, object, label);
    answer_replies::target_reply(found)
}

// All edges of an object, and 2 more than how many they are; after a 0 both columns are zero.
#[unsafe(no_mangle)]
pub extern "C" fn yokefathom_lean_object_edges(
    object: usize,
    bases: &[u64],
    short: &[u16],
    edge_codes: &[u16],
    targets: &[u32],
    fields: &[u32],
    own_targets: &mut [u32],
    own_labels: &mut [u32],
) -> u64
    ensures { let graph = lean_edges now_of bases short edge_codes targets fields in
        EdgesReplied (edges_found graph object (length own_targets.old) (length own_labels.old)) result own_targets.new own_labels.new }
{
    let graph = lent::lean(bases, short, edge_codes, targets, fields);
    ask_short_edges::object_edges(graph, object, own_targets, own_labels)
}
