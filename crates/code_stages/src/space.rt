// Where buffer 9 is short: 7 and 8 come before it, and the escapes are counted without ranking.
ghost use Rattle.std.specs.Prelude.{◌≡◌, length};
ghost use Rattle.columns.specs.Loans.{now_of};
ghost use Rattle.rules.specs.Types.{built_says};
ghost use Rattle.labels.specs.Fields.{name_columns};
ghost use Rattle.code_stages.specs.Stages.{Where, SpaceReady, fields_by, escapes_of, space_says};

use crate::{answers, fields};
use rules::{Counts, Refusal};

// The need of buffer 7, without counting and ranking space.
fn escapes_without(
    classes: usize,
    slot_starts: &[u32],
    slot_ends: &[u32],
    static_starts: &[u32],
    static_ends: &[u32],
    slot_labels: &[u32],
    static_names: &[u32],
    static_types: &[u8],
    offsets: &[u64],
    labels: &[u32],
    names: usize,
    fields: &mut [u32],
    table: &mut [u16],
) -> usize
    requires { let named = name_columns (λ x. x.now) slot_starts slot_ends static_starts static_ends slot_labels static_names static_types in
        SpaceReady named classes names offsets.now labels.now (length fields.old) (length table.old) }
    ensures { let named = name_columns now_of slot_starts slot_ends static_starts static_ends slot_labels static_names static_types in
        result ≡ escapes_of (fields_by named classes names labels.now) offsets.now labels.now }
{
    columns::zero(table, 0);
    label_fields::fields::mark_named(
        classes,
        slot_starts,
        slot_ends,
        static_starts,
        static_ends,
        slot_labels,
        static_names,
        static_types,
        names,
        table,
    );
    let listed = label_fields::fields::count_marked(table, names);
    if 32767 < listed {
        return need_escapes::slow_escapes(offsets, labels, names, table);
    }
    label_fields::fields::write_marked(table, names, fields);
    fields::write_table(fields, listed, names, table);
    label_codes::count_escapes(offsets, labels, names, table)
}

// An acceptance is handed on where buffer 9 has room.
pub fn space_room(
    v: Result<Counts, Refusal>,
    classes: usize,
    slot_starts: &[u32],
    slot_ends: &[u32],
    static_starts: &[u32],
    static_ends: &[u32],
    slot_labels: &[u32],
    static_names: &[u32],
    static_types: &[u8],
    offsets: &[u64],
    labels: &[u32],
    names: usize,
    escape_at: usize,
    escape_label: usize,
    edge_codes: usize,
    counting: usize,
    ranking: usize,
    fields: &mut [u32],
    table: &mut [u16],
) -> Result<Counts, Refusal>
    requires { let named = name_columns (λ x. x.now) slot_starts slot_ends static_starts static_ends slot_labels static_names static_types in
        Where (built_says v) (SpaceReady named classes names offsets.now labels.now (length fields.old) (length table.old)) }
    ensures { let named = name_columns now_of slot_starts slot_ends static_starts static_ends slot_labels static_names static_types in
        let escapes = escapes_of (fields_by named classes names labels.now) offsets.now labels.now in
        built_says result ≡ space_says (built_says v) escapes (length labels.now) names escape_at escape_label edge_codes counting ranking }
{
    let c = v?;
    if answers::is_short(names + 2, counting, ranking) {
        let rows = escapes_without(
            classes,
            slot_starts,
            slot_ends,
            static_starts,
            static_ends,
            slot_labels,
            static_names,
            static_types,
            offsets,
            labels,
            names,
            fields,
            table,
        );
        return Err(answers::first_short(
            rows,
            labels.len(),
            escape_at,
            escape_label,
            edge_codes,
            9,
        ));
    }
    Ok(c)
}
