// The copied route: a pass over a range of objects, and the edge stage.
ghost use Rattle.std.specs.Prelude.{◌≡◌, true, length};
ghost use Rattle.columns.specs.Columns.{accepts};
ghost use Rattle.columns.specs.Ranks.{Rises};
ghost use Rattle.rules.specs.Types.{built_says};
ghost use Rattle.edge_append.specs.Account.{AccountIn};
ghost use Rattle.columns.specs.Loans.{now_of};
ghost use Rattle.rules.specs.Tables.{object_table, static_table, copied_route};
ghost use Rattle.edge_pass.specs.Tables.{pass_classes, pass_slots, pass_input, Passable};
ghost use Rattle.edge_pass.specs.Range.{parts_from};
ghost use Rattle.edge_pass.specs.Walk.{Walked};
ghost use Rattle.edge_pass.specs.Stage.{HandedFrom, EdgedFrom};

use super::answer;
use edge_append::Pass;
use edge_object::step;

// The first `count` objects from `first` on, from the state that the pass before handed on. A cursor goes along the escapes with them.
pub fn walk_copied(
    from: Pass,
    first: usize,
    count: usize,
    ids: &[u64],
    kinds: &[u8],
    classes: &[u32],
    lengths: &[u32],
    loaders: &[u64],
    class_kinds: &[u8],
    slot_starts: &[u32],
    slot_ends: &[u32],
    static_starts: &[u32],
    static_ends: &[u32],
    slot_labels: &[u32],
    slot_weak: &[u8],
    static_names: &[u32],
    static_types: &[u8],
    static_values: &[u64],
    codes: &[u32],
    escape_places: &[u64],
    escape_ids: &[u64],
    base: u64,
    starts: &[u32],
    policy: rules::ReferencePolicy,
    short: &[u16],
    scale: u32,
    targets: &mut [u32],
    labels: &mut [u32],
    weak_from: &mut [u32],
    weak_to: &mut [u32],
    working: &mut [u64],
    account: &mut [[u64; 3]; 4],
) -> Pass
    requires rises { Rises escape_places.now }
    requires fact { let input = pass_input (object_table (λ x. x.now) ids kinds classes lengths)
        (pass_classes (λ x. x.now) loaders class_kinds slot_starts slot_ends static_starts static_ends)
        (pass_slots (λ x. x.now) slot_labels slot_weak) (static_table (λ x. x.now) static_names static_types static_values)
        (copied_route (λ x. x.now) codes escape_places escape_ids base starts) policy in
        Passable input working.old first count from (length targets.old) (length labels.old) (length weak_from.old) (length weak_to.old) }
    requires account_in { AccountIn account.old from }
    ensures { let input = pass_input (object_table now_of ids kinds classes lengths)
        (pass_classes now_of loaders class_kinds slot_starts slot_ends static_starts static_ends)
        (pass_slots now_of slot_labels slot_weak) (static_table now_of static_names static_types static_values)
        (copied_route now_of codes escape_places escape_ids base starts) policy in
        Walked ids.now (parts_from input working.old first) first count from result
        targets.old labels.old weak_from.old weak_to.old working.old account.old
        targets.new labels.new weak_from.new weak_to.new working.new account.new }
{
    let mut s = from;
    let mut row = 0;
    for k in 0..count {
        row = lookup::near(escape_places, u64::from(starts[first + k]), row);
        s = step::step_copied(
            s,
            first + k,
            row,
            ids,
            kinds,
            classes,
            lengths,
            loaders,
            class_kinds,
            slot_starts,
            slot_ends,
            static_starts,
            static_ends,
            slot_labels,
            slot_weak,
            static_names,
            static_types,
            static_values,
            codes,
            escape_places,
            escape_ids,
            base,
            starts,
            policy,
            short,
            scale,
            targets,
            labels,
            weak_from,
            weak_to,
            working,
            account,
        );
    }
    s
}

// The edge stage of a build: one pass over all objects appends the edges and the weak pairs, writes the offsets over the marks, and counts. Handed a
// refusal it does nothing. It is lent the columns that a pass reads; the contract
// speaks of the whole inputs that have them.
pub fn edges_copied(
    v: Result<rules::Counts, rules::Refusal>,
    ids: &[u64],
    kinds: &[u8],
    classes: &[u32],
    lengths: &[u32],
    loaders: &[u64],
    class_kinds: &[u8],
    slot_starts: &[u32],
    slot_ends: &[u32],
    static_starts: &[u32],
    static_ends: &[u32],
    slot_labels: &[u32],
    slot_weak: &[u8],
    static_names: &[u32],
    static_types: &[u8],
    static_values: &[u64],
    codes: &[u32],
    escape_places: &[u64],
    escape_ids: &[u64],
    base: u64,
    starts: &[u32],
    policy: rules::ReferencePolicy,
    short: &[u16],
    targets: &mut [u32],
    labels: &mut [u32],
    weak_from: &mut [u32],
    weak_to: &mut [u32],
    working: &mut [u64],
    account: &mut [[u64; 3]; 4],
) -> Result<rules::Counts, rules::Refusal>
    requires { let input = pass_input (object_table (λ x. x.now) ids kinds classes lengths)
        (pass_classes (λ x. x.now) loaders class_kinds slot_starts slot_ends static_starts static_ends)
        (pass_slots (λ x. x.now) slot_labels slot_weak) (static_table (λ x. x.now) static_names static_types static_values)
        (copied_route (λ x. x.now) codes escape_places escape_ids base starts) policy in
        (accepts (built_says v) ≡ true →
        HandedFrom input (length targets.old) (length labels.old) (length weak_from.old) (length weak_to.old) working.old account.old) }
    ensures { let input = pass_input (object_table now_of ids kinds classes lengths)
        (pass_classes now_of loaders class_kinds slot_starts slot_ends static_starts static_ends)
        (pass_slots now_of slot_labels slot_weak) (static_table now_of static_names static_types static_values)
        (copied_route now_of codes escape_places escape_ids base starts) policy in
        EdgedFrom input v result targets.old labels.old weak_from.old weak_to.old working.old account.old
        targets.new labels.new weak_from.new weak_to.new working.new account.new }
{
    let c = v?;
    let scale = lookup_hints::scale(ids, short.len());
    let q = walk_copied(
        Pass::begun(),
        0,
        ids.len(),
        ids,
        kinds,
        classes,
        lengths,
        loaders,
        class_kinds,
        slot_starts,
        slot_ends,
        static_starts,
        static_ends,
        slot_labels,
        slot_weak,
        static_names,
        static_types,
        static_values,
        codes,
        escape_places,
        escape_ids,
        base,
        starts,
        policy,
        short,
        scale,
        targets,
        labels,
        weak_from,
        weak_to,
        working,
        account,
    );
    Ok(answer::counted(c, q))
}
