// The columns that a host lends, as the values that the questions take.
ghost use Rattle.std.specs.Prelude.{◌≡◌};
ghost use Rattle.columns.specs.Loans.{now_of};
ghost use Rattle.store_read.specs.Back.{blocked_in};
ghost use Rattle.rules.specs.Tables.{offset_columns};
ghost use Rattle.rules.specs.Incoming.{in_columns};
ghost use Rattle.ask_span.specs.Graph.{strong_in, graph_in, edge_columns, graph_columns};
ghost use Rattle.ask_short.specs.Lean.{lean_in, lean_edges};
ghost use Rattle.incoming_ask.specs.Entries.{incoming_in};

use ask_short::Lean;
use ask_span::{Graph, Strong};
use incoming_ask::Incoming;
use labels::Codes;
use store::Offsets;

pub(crate) fn offsets<'a>(
    bases: &'a [u64],
    short: &'a [u16],
    long_at: &'a [u32],
    long_value: &'a [u64],
) -> Offsets<'a>
    ensures { blocked_in result ≡ offset_columns now_of bases short long_at long_value }
{
    Offsets {
        bases,
        short,
        long_at,
        long_value,
    }
}

pub(crate) fn strong<'a>(
    bases: &'a [u64],
    short: &'a [u16],
    long_at: &'a [u32],
    long_value: &'a [u64],
    edge_codes: &'a [u16],
    targets: &'a [u32],
    fields: &'a [u32],
    escape_at: &'a [u64],
    escape_label: &'a [u32],
) -> Strong<'a>
    ensures { strong_in result ≡ edge_columns now_of bases short long_at long_value edge_codes targets fields escape_at escape_label }
{
    Strong {
        offsets: offsets(bases, short, long_at, long_value),
        targets,
        labels: Codes {
            codes: edge_codes,
            fields,
            escape_at,
            escape_label,
        },
    }
}

pub(crate) fn graph<'a>(
    bases: &'a [u64],
    short: &'a [u16],
    long_at: &'a [u32],
    long_value: &'a [u64],
    edge_codes: &'a [u16],
    targets: &'a [u32],
    fields: &'a [u32],
    escape_at: &'a [u64],
    escape_label: &'a [u32],
    weak_from: &'a [u32],
    weak_to: &'a [u32],
) -> Graph<'a>
    ensures { graph_in result
        ≡ graph_columns now_of bases short long_at long_value edge_codes targets fields escape_at escape_label weak_from weak_to }
{
    Graph {
        offsets: offsets(bases, short, long_at, long_value),
        targets,
        labels: Codes {
            codes: edge_codes,
            fields,
            escape_at,
            escape_label,
        },
        weak_from,
        weak_to,
    }
}

pub(crate) fn lean<'a>(
    bases: &'a [u64],
    short: &'a [u16],
    edge_codes: &'a [u16],
    targets: &'a [u32],
    fields: &'a [u32],
) -> Lean<'a>
    ensures { lean_in result ≡ lean_edges now_of bases short edge_codes targets fields }
{
    Lean {
        bases,
        short,
        codes: edge_codes,
        targets,
        fields,
    }
}

pub(crate) fn incoming<'a>(
    sources: &'a [u32],
    places: &'a [u32],
    bases: &'a [u64],
    short: &'a [u16],
    long_at: &'a [u32],
    long_value: &'a [u64],
) -> Incoming<'a>
    ensures { incoming_in result ≡ in_columns now_of sources places bases short long_at long_value }
{
    Incoming {
        sources,
        places,
        offsets: offsets(bases, short, long_at, long_value),
    }
}
