// Who points here: the incoming side of a graph, made from its finished columns, and the questions on it.
ghost use Rattle.std.specs.Prelude.{◌≡◌};
ghost use Rattle.columns.specs.Loans.{now_of, old_of, new_of};
ghost use Rattle.rules.specs.Incoming.{in_room, in_left, in_columns, invert_left};
ghost use Rattle.ask_span.specs.Reading.{count_of};
ghost use Rattle.ask_span.specs.Graph.{edge_columns};
ghost use Rattle.incoming_ask.specs.Entries.{in_span, entry_of};
ghost use Rattle.answer_numbers.specs.Told.{told};
ghost use Rattle.yokefathom.specs.Calls.{InvertTold};

use super::lent;

// For each object the objects that refer to it and the places of their edges, rising. Zeros behind them; or a refusal, and all columns lent are zero.
#[unsafe(no_mangle)]
pub extern "C" fn yokefathom_invert(
    bases: &[u64],
    short: &[u16],
    long_at: &[u32],
    long_value: &[u64],
    edge_codes: &[u16],
    targets: &[u32],
    fields: &[u32],
    escape_at: &[u64],
    escape_label: &[u32],
    sources: &mut [u32],
    places: &mut [u32],
    in_bases: &mut [u64],
    in_short: &mut [u16],
    in_long_at: &mut [u32],
    in_long_value: &mut [u64],
    working: &mut [u64],
    answer: &mut [u64; 4],
)
    ensures { let graph = edge_columns now_of bases short long_at long_value edge_codes targets fields escape_at escape_label in
        let left = invert_left graph (in_room old_of sources places in_bases in_short in_long_at in_long_value working) in
        InvertTold left answer.new (in_left new_of left.says sources places in_bases in_short in_long_at in_long_value working) }
{
    let graph = lent::strong(
        bases,
        short,
        long_at,
        long_value,
        edge_codes,
        targets,
        fields,
        escape_at,
        escape_label,
    );
    let found = incoming::invert(
        graph,
        sources,
        places,
        in_bases,
        in_short,
        in_long_at,
        in_long_value,
        working,
    );
    *answer = answer_numbers::numbers(found);
}

// Where the entries of an object stand among the sources and the places.
#[unsafe(no_mangle)]
pub extern "C" fn yokefathom_in_span(
    object: usize,
    sources: &[u32],
    places: &[u32],
    in_bases: &[u64],
    in_short: &[u16],
    in_long_at: &[u32],
    in_long_value: &[u64],
    answer: &mut [u64; 4],
)
    ensures { answer.new ≡ told 4 (in_span (in_columns now_of sources places in_bases in_short in_long_at in_long_value) object) }
{
    let side = lent::incoming(
        sources,
        places,
        in_bases,
        in_short,
        in_long_at,
        in_long_value,
    );
    let found = side.span(object);
    *answer = answer_numbers::numbers(found);
}

// How many edges go to an object: 0 says that nobody holds it.
#[unsafe(no_mangle)]
pub extern "C" fn yokefathom_in_degree(
    object: usize,
    sources: &[u32],
    places: &[u32],
    in_bases: &[u64],
    in_short: &[u16],
    in_long_at: &[u32],
    in_long_value: &[u64],
    answer: &mut [u64; 4],
)
    ensures { answer.new ≡ told 4 (count_of (in_span (in_columns now_of sources places in_bases in_short in_long_at in_long_value) object)) }
{
    let side = lent::incoming(
        sources,
        places,
        in_bases,
        in_short,
        in_long_at,
        in_long_value,
    );
    let found = side.in_degree(object);
    *answer = answer_numbers::numbers(found);
}

// Entry k of an object: who refers to it, and the place of that edge in the target column.
#[unsafe(no_mangle)]
pub extern "C" fn yokefathom_entry_at(
    object: usize,
    k: usize,
    sources: &[u32],
    places: &[u32],
    in_bases: &[u64],
    in_short: &[u16],
    in_long_at: &[u32],
    in_long_value: &[u64],
    answer: &mut [u64; 4],
)
    ensures { answer.new ≡ told 4 (entry_of (in_columns now_of sources places in_bases in_short in_long_at in_long_value) object k) }
{
    let side = lent::incoming(
        sources,
        places,
        in_bases,
        in_short,
        in_long_at,
        in_long_value,
    );
    let found = side.entry_at(object, k);
    *answer = answer_numbers::numbers(found);
}
