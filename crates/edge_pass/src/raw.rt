// The raw route: a pass over a range of objects, and the edge stage.
ghost use Rattle.std.specs.Prelude.{◌≡◌, true, length};
ghost use Rattle.columns.specs.Columns.{accepts};
ghost use Rattle.rules.specs.Types.{built_says};
ghost use Rattle.edge_append.specs.Account.{AccountIn};
ghost use Rattle.columns.specs.Loans.{now_of};
ghost use Rattle.rules.specs.Tables.{object_table, slot_table, static_table, raw_route};
ghost use Rattle.edge_pass.specs.Tables.{pass_classes, pass_input, Passable};
ghost use Rattle.edge_pass.specs.Range.{parts_from};
ghost use Rattle.edge_pass.specs.Walk.{Walked};
ghost use Rattle.edge_pass.specs.Stage.{HandedFrom, EdgedFrom};

use super::answer;
use edge_append::Pass;
use edge_object::step;

// The first `count` objects from `first` on, from the state that the pass before handed on.
pub fn walk_raw(
    from: Pass,
    first: usize,
    count: usize,
    ids: &[u64],
    kinds: &[u8],
    classes: &[u32],
    lengths: &[u32],
    loaders: &[u64],
    class_kinds: &[u8],
    slot_starts: &[u32],
    slot_ends: &[u32],
    static_starts: &[u32],
    static_ends: &[u32],
    slot_offsets: &[u32],
    slot_labels: &[u32],
    slot_weak: &[u8],
    static_names: &[u32],
    static_types: &[u8],
    static_values: &[u64],
    bytes: &[u8],
    size: usize,
    starts: &[u64],
    bodies: &[u32],
    policy: rules::ReferencePolicy,
    short: &[u16],
    scale: u32,
    targets: &mut [u32],
    labels: &mut [u32],
    weak_from: &mut [u32],
    weak_to: &mut [u32],
    working: &mut [u64],
    account: &mut [[u64; 3]; 4],
) -> Pass
    requires fact { let input = pass_input (object_table (λ x. x.now) ids kinds classes lengths)
        (pass_classes (λ x. x.now) loaders class_kinds slot_starts slot_ends static_starts static_ends)
        (slot_table (λ x. x.now) slot_offsets slot_labels slot_weak) (static_table (λ x. x.now) static_names static_types static_values)
        (raw_route (λ x. x.now) bytes size starts bodies) policy in
        Passable input working.old first count from (length targets.old) (length labels.old) (length weak_from.old) (length weak_to.old) }
    requires account_in { AccountIn account.old from }
    ensures { let input = pass_input (object_table now_of ids kinds classes lengths)
        (pass_classes now_of loaders class_kinds slot_starts slot_ends static_starts static_ends)
        (slot_table now_of slot_offsets slot_labels slot_weak) (static_table now_of static_names static_types static_values)
        (raw_route now_of bytes size starts bodies) policy in
        Walked ids.now (parts_from input working.old first) first count from result
        targets.old labels.old weak_from.old weak_to.old working.old account.old
        targets.new labels.new weak_from.new weak_to.new working.new account.new }
{
    let mut s = from;
    for k in 0..count {
        s = step::step_raw(
            s,
            first + k,
            ids,
            kinds,
            classes,
            lengths,
            loaders,
            class_kinds,
            slot_starts,
            slot_ends,
            static_starts,
            static_ends,
            slot_offsets,
            slot_labels,
            slot_weak,
            static_names,
            static_types,
            static_values,
            bytes,
            size,
            starts,
            bodies,
            policy,
            short,
            scale,
            targets,
            labels,
            weak_from,
            weak_to,
            working,
            account,
        );
    }
    s
}

// The edge stage of a build, as by the copied route.
pub fn edges_raw(
    v: Result<rules::Counts, rules::Refusal>,
    ids: &[u64],
    kinds: &[u8],
    classes: &[u32],
    lengths: &[u32],
    loaders: &[u64],
    class_kinds: &[u8],
    slot_starts: &[u32],
    slot_ends: &[u32],
    static_starts: &[u32],
    static_ends: &[u32],
    slot_offsets: &[u32],
    slot_labels: &[u32],
    slot_weak: &[u8],
    static_names: &[u32],
    static_types: &[u8],
    static_values: &[u64],
    bytes: &[u8],
    size: usize,
    starts: &[u64],
    bodies: &[u32],
    policy: rules::ReferencePolicy,
    short: &[u16],
    targets: &mut [u32],
    labels: &mut [u32],
    weak_from: &mut [u32],
    weak_to: &mut [u32],
    working: &mut [u64],
    account: &mut [[u64; 3]; 4],
) -> Result<rules::Counts, rules::Refusal>
    requires { let input = pass_input (object_table (λ x. x.now) ids kinds classes lengths)
        (pass_classes (λ x. x.now) loaders class_kinds slot_starts slot_ends static_starts static_ends)
        (slot_table (λ x. x.now) slot_offsets slot_labels slot_weak) (static_table (λ x. x.now) static_names static_types static_values)
        (raw_route (λ x. x.now) bytes size starts bodies) policy in
        (accepts (built_says v) ≡ true →
        HandedFrom input (length targets.old) (length labels.old) (length weak_from.old) (length weak_to.old) working.old account.old) }
    ensures { let input = pass_input (object_table now_of ids kinds classes lengths)
        (pass_classes now_of loaders class_kinds slot_starts slot_ends static_starts static_ends)
        (slot_table now_of slot_offsets slot_labels slot_weak) (static_table now_of static_names static_types static_values)
        (raw_route now_of bytes size starts bodies) policy in
        EdgedFrom input v result targets.old labels.old weak_from.old weak_to.old working.old account.old
        targets.new labels.new weak_from.new weak_to.new working.new account.new }
{
    let c = v?;
    let scale = lookup_hints::scale(ids, short.len());
    let q = walk_raw(
        Pass::begun(),
        0,
        ids.len(),
        ids,
        kinds,
        classes,
        lengths,
        loaders,
        class_kinds,
        slot_starts,
        slot_ends,
        static_starts,
        static_ends,
        slot_offsets,
        slot_labels,
        slot_weak,
        static_names,
        static_types,
        static_values,
        bytes,
        size,
        starts,
        bodies,
        policy,
        short,
        scale,
        targets,
        labels,
        weak_from,
        weak_to,
        working,
        account,
    );
    Ok(answer::counted(c, q))
}
