// Coding a plain graph's columns: offsets into blocks, labels into codes, with ROOM for buffers 4 to 9 decided in order.
#![tactic(auto)]

ghost use Rattle.columns.specs.Loans.{now_of, old_of, new_of};
ghost use Rattle.rules.specs.Types.{built_says};
ghost use Rattle.rules.specs.Tables.{coding_room, coding_left};
ghost use Rattle.labels.specs.Fields.{name_columns};
ghost use Rattle.code_columns.specs.Stages.{Where, Ready};
ghost use Rattle.code_columns.specs.Finished.{PartsCoding};

use rules::{Counts, Refusal};

// The coded columns of the plain graph whose offsets and labels these are. A refusal is handed on; an acceptance, with nothing coded yet, takes the
// numbers of long offsets, fields and escapes, or turns into ROOM. After a refusal all eleven columns are zero.
pub fn code_parts(
    v: Result<Counts, Refusal>,
    classes: usize,
    slot_starts: &[u32],
    slot_ends: &[u32],
    static_starts: &[u32],
    static_ends: &[u32],
    slot_labels: &[u32],
    static_names: &[u32],
    static_types: &[u8],
    names: usize,
    offsets: &[u64],
    labels: &[u32],
    bases: &mut [u64],
    short: &mut [u16],
    long_at: &mut [u32],
    long_value: &mut [u64],
    fields: &mut [u32],
    table: &mut [u16],
    escape_at: &mut [u64],
    escape_label: &mut [u32],
    edge_codes: &mut [u16],
    counting: &mut [u64],
    ranking: &mut [u64],
) -> Result<Counts, Refusal>
    requires { let named = name_columns (λ x. x.now) slot_starts slot_ends static_starts static_ends slot_labels static_names static_types in
        Where (built_says v) (Ready named classes names offsets.now labels.now) }
    ensures { let named = name_columns now_of slot_starts slot_ends static_starts static_ends slot_labels static_names static_types in
        let room = coding_room old_of bases short long_at long_value fields table escape_at escape_label edge_codes counting ranking in
        let left = coding_left new_of bases short long_at long_value fields table escape_at escape_label edge_codes counting ranking in
        PartsCoding named classes names offsets.now labels.now (built_says v) room (built_says result) left }
{
    let v1 = code_stages::offsets::offsets_stage(v, offsets, bases, short, long_at, long_value);
    let v2 = code_stages::fields::fields_room(
        v1,
        classes,
        slot_starts,
        slot_ends,
        static_starts,
        static_ends,
        slot_labels,
        static_names,
        static_types,
        labels,
        names,
        fields.len(),
        table,
    );
    let v3 = code_stages::space::space_room(
        v2,
        classes,
        slot_starts,
        slot_ends,
        static_starts,
        static_ends,
        slot_labels,
        static_names,
        static_types,
        offsets,
        labels,
        names,
        escape_at.len(),
        escape_label.len(),
        edge_codes.len(),
        counting.len(),
        ranking.len(),
        fields,
        table,
    );
    code_stages::fields::write_fields(
        v3,
        classes,
        slot_starts,
        slot_ends,
        static_starts,
        static_ends,
        slot_labels,
        static_names,
        static_types,
        labels,
        names,
        fields,
        table,
        counting,
        ranking,
    );
    let r = code_stages::codes::codes_stage(
        v3,
        offsets,
        labels,
        names,
        table,
        escape_at,
        escape_label,
        edge_codes,
    );
    code_stages::settle::settle(
        r,
        names,
        labels.len(),
        bases,
        short,
        long_at,
        long_value,
        fields,
        table,
        escape_at,
        escape_label,
        edge_codes,
        counting,
        ranking,
    );
    r
}
