// The stages of the fields: buffer 6, and the fields and the code table written.
ghost use Rattle.std.specs.Prelude.{◌≡◌, length, take, ◌+◌, ◌≤◌};
ghost use Rattle.columns.specs.Columns.{over};
ghost use Rattle.columns.specs.Loans.{now_of};
ghost use Rattle.rules.specs.Labels.{code_table};
ghost use Rattle.labels.specs.Coding.{Room};
ghost use Rattle.rules.specs.Types.{built_says};
ghost use Rattle.labels.specs.Fields.{name_columns, Named};
ghost use Rattle.code_stages.specs.Stages.{Where, NamesReady, RankReady, fields_by, fields_says, FieldsWritten};

use rules::{Counts, Refusal};

// Whether buffer 6 has room. The code table serves as marks.
pub fn fields_room(
    v: Result<Counts, Refusal>,
    classes: usize,
    slot_starts: &[u32],
    slot_ends: &[u32],
    static_starts: &[u32],
    static_ends: &[u32],
    slot_labels: &[u32],
    static_names: &[u32],
    static_types: &[u8],
    labels: &[u32],
    names: usize,
    fields: usize,
    table: &mut [u16],
) -> Result<Counts, Refusal>
    requires { let named = name_columns (λ x. x.now) slot_starts slot_ends static_starts static_ends slot_labels static_names static_types in
        Where (built_says v) (NamesReady named classes names) }
    ensures { let named = name_columns now_of slot_starts slot_ends static_starts static_ends slot_labels static_names static_types in
        built_says result ≡ fields_says (built_says v) (length (fields_by named classes names labels.now)) names fields (length table.old) }
{
    let c = v?;
    if table.len() < names + 2 {
        return Err(Refusal::Room(6));
    }
    let n = label_fields::count_fields(
        classes,
        slot_starts,
        slot_ends,
        static_starts,
        static_ends,
        slot_labels,
        static_names,
        static_types,
        labels,
        names,
        table,
    );
    if fields < n {
        return Err(Refusal::Room(6));
    }
    Ok(Counts { fields: n, ..c })
}

// The code table of the first n fields.
pub(crate) fn write_table(fields: &[u32], n: usize, names: usize, table: &mut [u16])
    requires room { Room names table.old × (n ≤ length fields.now) × (n ≤ 32767) }
    requires named { Named names (take n fields.now) }
    ensures { table.new ≡ over (code_table names (take n fields.now)) table.old }
{
    label_fields::fields::write_table(&fields[0..n], names, table);
}

// The fields that have codes and the code table, over the fronts of their columns.
pub fn write_fields(
    v: Result<Counts, Refusal>,
    classes: usize,
    slot_starts: &[u32],
    slot_ends: &[u32],
    static_starts: &[u32],
    static_ends: &[u32],
    slot_labels: &[u32],
    static_names: &[u32],
    static_types: &[u8],
    labels: &[u32],
    names: usize,
    fields: &mut [u32],
    table: &mut [u16],
    counting: &mut [u64],
    ranking: &mut [u64],
)
    requires { let named = name_columns (λ x. x.now) slot_starts slot_ends static_starts static_ends slot_labels static_names static_types in
        Where (built_says v)
        (RankReady named classes names labels.now (length fields.old) (length table.old) (length counting.old) (length ranking.old)) }
    ensures { let named = name_columns now_of slot_starts slot_ends static_starts static_ends slot_labels static_names static_types in
        Where (built_says v) (FieldsWritten names (fields_by named classes names labels.now) fields.new table.new) }
{
    if v.is_ok() {
        let n = label_fields::write_fields(
            classes,
            slot_starts,
            slot_ends,
            static_starts,
            static_ends,
            slot_labels,
            static_names,
            static_types,
            labels,
            names,
            fields,
            table,
            counting,
            ranking,
        );
        write_table(fields, n, names, table);
    }
}
