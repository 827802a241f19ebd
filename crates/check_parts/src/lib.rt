// The checks of the columns handed to `from_parts`.
#![tactic(auto)]

pub mod edges;
pub mod ends;
pub mod judge;
pub mod offsets;

ghost use Rattle.std.specs.Prelude.{◌≡◌};
ghost use Rattle.columns.specs.Loans.{now_of};
ghost use Rattle.rules.specs.Tables.{class_table, slot_table, static_table, schema_of};
ghost use Rattle.rules.specs.Types.{checked_says};
ghost use Rattle.rules.specs.Parts.{handed_says};
ghost use Rattle.check_parts.specs.Checks.{handed};

use check_tables::{classes, lengths};
use rules::Refusal;

// LENGTHS, LIMIT, CLASS without its two causes about found objects, PLACES for the label count, PARTS. Accepted, it gives the label count.
pub fn check_parts(
    class_ids: &[u64],
    loaders: &[u64],
    dumped: &[u8],
    class_kinds: &[u8],
    slot_starts: &[u32],
    slot_ends: &[u32],
    static_starts: &[u32],
    static_ends: &[u32],
    slot_offsets: &[u32],
    slot_labels: &[u32],
    slot_weak: &[u8],
    static_names: &[u32],
    static_types: &[u8],
    static_values: &[u64],
    names: usize,
    offsets: &[u64],
    targets: &[u32],
    labels: &[u32],
    weak_from: &[u32],
    weak_to: &[u32],
    roots: &[u32],
) -> Result<usize, Refusal>
    ensures { let schema = schema_of (class_table now_of class_ids loaders dumped class_kinds slot_starts slot_ends static_starts static_ends)
        (slot_table now_of slot_offsets slot_labels slot_weak) (static_table now_of static_names static_types static_values) names in
        let columns = handed offsets.now targets.now labels.now weak_from.now weak_to.now roots.now in
        checked_says result ≡ handed_says schema columns }
{
    if lengths::schema_lengths(
        class_ids,
        loaders,
        dumped,
        class_kinds,
        slot_starts,
        slot_ends,
        static_starts,
        static_ends,
        slot_offsets,
        slot_labels,
        slot_weak,
        static_names,
        static_types,
        static_values,
    ) {
        return Err(Refusal::Lengths);
    }
    if lengths::differ(weak_from.len(), &[weak_to.len()]) {
        return Err(Refusal::Lengths);
    }
    if lengths::over_limit(
        offsets::object_count(offsets.len()),
        class_ids.len(),
        names,
        slot_offsets.len(),
        static_names.len(),
    ) {
        return Err(Refusal::Limit);
    }
    let class = classes::first_class(
        dumped,
        class_kinds,
        slot_starts,
        slot_ends,
        static_starts,
        static_ends,
        slot_offsets,
        slot_labels,
        slot_weak,
        static_names,
        static_types,
        names,
    );
    if class < class_ids.len() {
        return Err(Refusal::Class(class));
    }
    if 268435456 < labels.len() {
        return Err(Refusal::Places);
    }
    judge::judge_parts(names, offsets, targets, labels, weak_from, weak_to, roots)
}
