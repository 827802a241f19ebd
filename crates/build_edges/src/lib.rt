// The first half of a build: the checks, the needs, ROOM 1 to 4, and the edges. A wide function is a straight line of stages; a stage that is handed a
// refusal hands it on.
#![tactic(auto)]

ghost use Rattle.std.specs.Prelude.{◌≡◌, true, ◌^◌, ◌≤◌, min, length};
ghost use Rattle.columns.specs.Columns.{accepts};
ghost use Rattle.columns.specs.Loans.{now_of};
ghost use Rattle.index.specs.Copied.{ids_of};
ghost use Rattle.rules.specs.Types.{checked_says};
ghost use Rattle.rules.specs.Account.{no_account};
ghost use Rattle.rules.specs.Tables.{object_table, class_table, slot_table, static_table, schema_of, copied_route, raw_route, input_of};
ghost use Rattle.need_roots.specs.Roots.{Below, ClassMarks, Collected};
ghost use Rattle.need_weak.specs.Pairs.{copied_total, raw_total};
ghost use Rattle.rules.specs.Needs.{Fits};
ghost use Rattle.build_edges.specs.Laying.{Laying, CopiedAsked, RawAsked};

use rules::{Counts, ReferencePolicy, Refusal};

fn passed(c: Result<usize, Refusal>) -> bool
    ensures { result ≡ accepts (checked_says c) }
{
    c.is_ok()
}

// The account starts at zero.
fn begin(account: &mut [[u64; 3]; 4])
    ensures { account.new ≡ no_account }
{
    *account = [[0; 3]; 4];
}

// The need of buffer 3, and the roots, of an input that the checks accept.
fn roots_of(
    c: Result<usize, Refusal>,
    objects: usize,
    roots: &[u32],
    roots_out: &mut [u32],
    working: &mut [u64],
) -> usize
    requires { accepts (checked_says c) ≡ true → Below objects roots.now × (objects ≤ 2 ^ 32) × ClassMarks objects working.old }
    ensures { accepts (checked_says c) ≡ true →
        Collected roots.now objects working.old roots_out.old result working.new roots_out.new }
{
    if !passed(c) {
        return 0;
    }
    need_roots::collect_roots(objects, roots, roots_out, working)
}

// The need of buffer 2, of an input that the checks accept; or, where all weak slots have room, their number, and nothing is looked up.
fn weak_copied(
    c: Result<usize, Refusal>,
    weak_from: usize,
    weak_to: usize,
    ids: &[u64],
    kinds: &[u8],
    classes: &[u32],
    class_kinds: &[u8],
    slot_starts: &[u32],
    slot_ends: &[u32],
    slot_weak: &[u8],
    codes: &[u32],
    escape_places: &[u64],
    escape_ids: &[u64],
    base: u64,
    starts: &[u32],
    policy: ReferencePolicy,
) -> usize
    requires { accepts (checked_says c) ≡ true →
        CopiedAsked ids.now kinds.now classes.now starts.now class_kinds.now slot_starts.now slot_ends.now (length slot_weak.now) }
    ensures { let held = ids_of codes.now escape_places.now escape_ids.now base in
        let need = copied_total ids.now kinds.now classes.now starts.now held
        class_kinds.now slot_starts.now slot_ends.now slot_weak.now policy (length ids.now) in
        (accepts (checked_says c) ≡ true → Fits (min weak_from weak_to) need result) }
{
    if !passed(c) {
        return 0;
    }
    let most = need_weak::most::most_weak(
        kinds,
        classes,
        class_kinds,
        slot_starts,
        slot_ends,
        slot_weak,
        policy,
    );
    if most <= build_rooms::least(weak_from, weak_to) {
        return most;
    }
    need_weak::copied::count_weak_copied(
        ids,
        kinds,
        classes,
        class_kinds,
        slot_starts,
        slot_ends,
        slot_weak,
        codes,
        escape_places,
        escape_ids,
        base,
        starts,
        policy,
    )
}

// The need of buffer 2, of an input that the checks accept; or, where all weak slots have room, their number, and nothing is looked up.
fn weak_raw(
    c: Result<usize, Refusal>,
    weak_from: usize,
    weak_to: usize,
    ids: &[u64],
    kinds: &[u8],
    classes: &[u32],
    class_kinds: &[u8],
    slot_starts: &[u32],
    slot_ends: &[u32],
    slot_offsets: &[u32],
    slot_weak: &[u8],
    bytes: &[u8],
    size: usize,
    starts: &[u64],
    bodies: &[u32],
    policy: ReferencePolicy,
) -> usize
    requires { accepts (checked_says c) ≡ true →
        RawAsked ids.now kinds.now classes.now starts.now bodies.now (length bytes.now) size
        class_kinds.now slot_starts.now slot_ends.now (length slot_offsets.now) (length slot_weak.now) }
    ensures { let need = raw_total ids.now kinds.now classes.now starts.now bodies.now bytes.now size
        class_kinds.now slot_starts.now slot_ends.now slot_offsets.now slot_weak.now policy (length ids.now) in
        (accepts (checked_says c) ≡ true → Fits (min weak_from weak_to) need result) }
{
    if !passed(c) {
        return 0;
    }
    let most = need_weak::most::most_weak(
        kinds,
        classes,
        class_kinds,
        slot_starts,
        slot_ends,
        slot_weak,
        policy,
    );
    if most <= build_rooms::least(weak_from, weak_to) {
        return most;
    }
    need_weak::raw::count_weak_raw(
        ids,
        kinds,
        classes,
        class_kinds,
        slot_starts,
        slot_ends,
        slot_offsets,
        slot_weak,
        bytes,
        size,
        starts,
        bodies,
        policy,
    )
}

// By the copied route. `bases` is the length lent for that column, which ROOM 4 tests; `short` has the hints of the ids.
pub fn lay_copied(
    ids: &[u64],
    kinds: &[u8],
    classes: &[u32],
    lengths: &[u32],
    class_ids: &[u64],
    loaders: &[u64],
    dumped: &[u8],
    class_kinds: &[u8],
    slot_starts: &[u32],
    slot_ends: &[u32],
    static_starts: &[u32],
    static_ends: &[u32],
    slot_offsets: &[u32],
    slot_labels: &[u32],
    slot_weak: &[u8],
    static_names: &[u32],
    static_types: &[u8],
    static_values: &[u64],
    names: usize,
    codes: &[u32],
    escape_places: &[u64],
    escape_ids: &[u64],
    base: u64,
    starts: &[u32],
    roots: &[u32],
    policy: ReferencePolicy,
    bases: usize,
    short: &[u16],
    targets: &mut [u32],
    labels: &mut [u32],
    weak_from: &mut [u32],
    weak_to: &mut [u32],
    roots_out: &mut [u32],
    working: &mut [u64],
    account: &mut [[u64; 3]; 4],
) -> Result<Counts, Refusal>
    ensures { let schema = schema_of (class_table now_of class_ids loaders dumped class_kinds slot_starts slot_ends static_starts static_ends)
        (slot_table now_of slot_offsets slot_labels slot_weak) (static_table now_of static_names static_types static_values) names in
        let route = copied_route now_of codes escape_places escape_ids base starts in
        let input = input_of (object_table now_of ids kinds classes lengths) schema route roots.now policy in
        Laying input bases (length short.now) result
        targets.old labels.old weak_from.old weak_to.old roots_out.old working.old
        targets.new labels.new weak_from.new weak_to.new roots_out.new working.new account.new }
{
    let c = check_input::fit_copied(
        ids,
        kinds,
        classes,
        lengths,
        class_ids,
        loaders,
        dumped,
        class_kinds,
        slot_starts,
        slot_ends,
        static_starts,
        static_ends,
        slot_offsets,
        slot_labels,
        slot_weak,
        static_names,
        static_types,
        static_values,
        names,
        codes,
        escape_places,
        escape_ids,
        base,
        starts,
        roots,
        policy,
        build_rooms::least(targets.len(), labels.len()),
        working,
    );
    let w = weak_copied(
        c,
        weak_from.len(),
        weak_to.len(),
        ids,
        kinds,
        classes,
        class_kinds,
        slot_starts,
        slot_ends,
        slot_weak,
        codes,
        escape_places,
        escape_ids,
        base,
        starts,
        policy,
    );
    let n = roots_of(c, ids.len(), roots, roots_out, working);
    let v = build_rooms::first_rooms(
        c,
        w,
        n,
        ids.len(),
        targets.len(),
        labels.len(),
        weak_from.len(),
        weak_to.len(),
        roots_out.len(),
        bases,
        short.len(),
        working.len(),
    );
    begin(account);
    edge_pass::copied::edges_copied(
        v,
        ids,
        kinds,
        classes,
        lengths,
        loaders,
        class_kinds,
        slot_starts,
        slot_ends,
        static_starts,
        static_ends,
        slot_labels,
        slot_weak,
        static_names,
        static_types,
        static_values,
        codes,
        escape_places,
        escape_ids,
        base,
        starts,
        policy,
        short,
        targets,
        labels,
        weak_from,
        weak_to,
        working,
        account,
    )
}

// By the raw route, with `bases` and `short` as by the copied one.
pub fn lay_raw(
    ids: &[u64],
    kinds: &[u8],
    classes: &[u32],
    lengths: &[u32],
    class_ids: &[u64],
    loaders: &[u64],
    dumped: &[u8],
    class_kinds: &[u8],
    slot_starts: &[u32],
    slot_ends: &[u32],
    static_starts: &[u32],
    static_ends: &[u32],
    slot_offsets: &[u32],
    slot_labels: &[u32],
    slot_weak: &[u8],
    static_names: &[u32],
    static_types: &[u8],
    static_values: &[u64],
    names: usize,
    bytes: &[u8],
    size: usize,
    starts: &[u64],
    bodies: &[u32],
    roots: &[u32],
    policy: ReferencePolicy,
    bases: usize,
    short: &[u16],
    targets: &mut [u32],
    labels: &mut [u32],
    weak_from: &mut [u32],
    weak_to: &mut [u32],
    roots_out: &mut [u32],
    working: &mut [u64],
    account: &mut [[u64; 3]; 4],
) -> Result<Counts, Refusal>
    ensures { let schema = schema_of (class_table now_of class_ids loaders dumped class_kinds slot_starts slot_ends static_starts static_ends)
        (slot_table now_of slot_offsets slot_labels slot_weak) (static_table now_of static_names static_types static_values) names in
        let route = raw_route now_of bytes size starts bodies in
        let input = input_of (object_table now_of ids kinds classes lengths) schema route roots.now policy in
        Laying input bases (length short.now) result
        targets.old labels.old weak_from.old weak_to.old roots_out.old working.old
        targets.new labels.new weak_from.new weak_to.new roots_out.new working.new account.new }
{
    let c = check_input::fit_raw(
        ids,
        kinds,
        classes,
        lengths,
        class_ids,
        loaders,
        dumped,
        class_kinds,
        slot_starts,
        slot_ends,
        static_starts,
        static_ends,
        slot_offsets,
        slot_labels,
        slot_weak,
        static_names,
        static_types,
        static_values,
        names,
        bytes,
        size,
        starts,
        bodies,
        roots,
        policy,
        working,
    );
    let w = weak_raw(
        c,
        weak_from.len(),
        weak_to.len(),
        ids,
        kinds,
        classes,
        class_kinds,
        slot_starts,
        slot_ends,
        slot_offsets,
        slot_weak,
        bytes,
        size,
        starts,
        bodies,
        policy,
    );
    let n = roots_of(c, ids.len(), roots, roots_out, working);
    let v = build_rooms::first_rooms(
        c,
        w,
        n,
        ids.len(),
        targets.len(),
        labels.len(),
        weak_from.len(),
        weak_to.len(),
        roots_out.len(),
        bases,
        short.len(),
        working.len(),
    );
    begin(account);
    edge_pass::raw::edges_raw(
        v,
        ids,
        kinds,
        classes,
        lengths,
        loaders,
        class_kinds,
        slot_starts,
        slot_ends,
        static_starts,
        static_ends,
        slot_offsets,
        slot_labels,
        slot_weak,
        static_names,
        static_types,
        static_values,
        bytes,
        size,
        starts,
        bodies,
        policy,
        short,
        targets,
        labels,
        weak_from,
        weak_to,
        working,
        account,
    )
}
