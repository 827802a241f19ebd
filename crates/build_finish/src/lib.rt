// The second half of a build: what the first half left is coded, and then every column is kept or cleared.
#![tactic(auto)]

ghost use Rattle.rules.specs.Types.{built_says};
ghost use Rattle.columns.specs.Loans.{now_of, old_of, new_of};
ghost use Rattle.rules.specs.Tables.{coding_room, coding_left};
ghost use Rattle.labels.specs.Fields.{name_columns};
ghost use Rattle.build_finish.specs.Rest.{Asked, Rest};

use rules::{Counts, Refusal};

// The offsets of all objects and the labels of all edges stand at the fronts of the work columns: they are coded, and then comes the end.
pub fn finish(
    v: Result<Counts, Refusal>,
    objects: usize,
    classes: usize,
    slot_starts: &[u32],
    slot_ends: &[u32],
    static_starts: &[u32],
    static_ends: &[u32],
    slot_labels: &[u32],
    static_names: &[u32],
    static_types: &[u8],
    names: usize,
    targets: &mut [u32],
    labels: &mut [u32],
    weak_from: &mut [u32],
    weak_to: &mut [u32],
    roots_out: &mut [u32],
    working: &mut [u64],
    account: &mut [[u64; 3]; 4],
    bases: &mut [u64],
    short: &mut [u16],
    long_at: &mut [u32],
    long_value: &mut [u64],
    fields: &mut [u32],
    table: &mut [u16],
    escape_at: &mut [u64],
    escape_label: &mut [u32],
    edge_codes: &mut [u16],
    counting: &mut [u64],
    ranking: &mut [u64],
) -> Result<Counts, Refusal>
    requires { let named = name_columns (λ x. x.now) slot_starts slot_ends static_starts static_ends slot_labels static_names static_types in
        Asked named classes names objects (built_says v) labels.old working.old }
    ensures { let named = name_columns now_of slot_starts slot_ends static_starts static_ends slot_labels static_names static_types in
        let room = coding_room old_of bases short long_at long_value fields table escape_at escape_label edge_codes counting ranking in
        let left = coding_left new_of bases short long_at long_value fields table escape_at escape_label edge_codes counting ranking in
        Rest named classes names objects
        (built_says v) targets.old labels.old weak_from.old weak_to.old roots_out.old working.old account.old room
        (built_says result) targets.new labels.new weak_from.new weak_to.new roots_out.new working.new account.new left }
{
    let n = objects.saturating_add(1).min(working.len());
    let m = build_rooms::edges_kept(v).min(labels.len());
    let r = code_columns::code_parts(
        v,
        classes,
        slot_starts,
        slot_ends,
        static_starts,
        static_ends,
        slot_labels,
        static_names,
        static_types,
        names,
        &working[..n],
        &labels[..m],
        bases,
        short,
        long_at,
        long_value,
        fields,
        table,
        escape_at,
        escape_label,
        edge_codes,
        counting,
        ranking,
    );
    build_rooms::settle(
        r, targets, labels, weak_from, weak_to, roots_out, working, account,
    );
    r
}
