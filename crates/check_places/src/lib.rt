// The number of places of an input, by both routes.
#![tactic(auto)]

ghost use Rattle.std.specs.Prelude.{◌≡◌};
ghost use Rattle.rules.specs.Needs.{Fits};
ghost use Rattle.check_ids.specs.Copying.{held_codes};
ghost use Rattle.check_places.specs.Placing.{PartTables, ClassTables, CodeTables, raw_places, copied_places};

use rules::ReferencePolicy;

pub mod codes;
pub mod fit;
pub mod statics;

// The places of a raw input.
#[tactic(auto, unfolding(crate::specs::Placing::raw_places))]
pub fn raw_places(
    ids: &[u64],
    kinds: &[u8],
    classes: &[u32],
    lengths: &[u32],
    class_ids: &[u64],
    loaders: &[u64],
    dumped: &[u8],
    slot_starts: &[u32],
    slot_ends: &[u32],
    static_starts: &[u32],
    static_ends: &[u32],
    static_types: &[u8],
    static_values: &[u64],
) -> u64
    requires part_tables { PartTables kinds.now classes.now lengths.now slot_starts.now slot_ends.now }
    requires class_tables { ClassTables ids.now class_ids.now loaders.now dumped.now static_starts.now static_ends.now static_types.now static_values.now }
    ensures { result ≡ raw_places ids.now kinds.now classes.now lengths.now
        class_ids.now loaders.now dumped.now slot_starts.now slot_ends.now static_starts.now static_ends.now
        static_types.now static_values.now }
{
    let parts = check_place_steps::count_parts(kinds, classes, lengths, slot_starts, slot_ends);
    let held = statics::count_classes(
        ids,
        class_ids,
        loaders,
        dumped,
        static_starts,
        static_ends,
        static_types,
        static_values,
        true,
    );
    parts + held
}

// The places of a copied input whose codes, parts and classes were checked.
#[tactic(auto, unfolding(crate::specs::Placing::copied_places))]
pub fn copied_places(
    ids: &[u64],
    kinds: &[u8],
    classes: &[u32],
    lengths: &[u32],
    class_ids: &[u64],
    loaders: &[u64],
    dumped: &[u8],
    class_kinds: &[u8],
    slot_starts: &[u32],
    slot_ends: &[u32],
    static_starts: &[u32],
    static_ends: &[u32],
    slot_weak: &[u8],
    static_types: &[u8],
    static_values: &[u64],
    codes: &[u32],
    starts: &[u32],
    policy: ReferencePolicy,
) -> u64
    requires code_tables { CodeTables kinds.now classes.now lengths.now class_kinds.now slot_starts.now slot_ends.now slot_weak.now codes.now starts.now }
    requires class_tables { ClassTables ids.now class_ids.now loaders.now dumped.now static_starts.now static_ends.now static_types.now static_values.now }
    ensures { result ≡ copied_places ids.now kinds.now classes.now lengths.now
        class_ids.now loaders.now dumped.now class_kinds.now
        slot_starts.now slot_ends.now static_starts.now static_ends.now
        slot_weak.now static_types.now static_values.now codes.now starts.now policy }
{
    let own = codes::count_objects(
        kinds,
        classes,
        lengths,
        class_kinds,
        slot_starts,
        slot_ends,
        slot_weak,
        codes,
        starts,
        policy,
    );
    let held = statics::count_classes(
        ids,
        class_ids,
        loaders,
        dumped,
        static_starts,
        static_ends,
        static_types,
        static_values,
        false,
    );
    own + held
}

// The places of such an input, `held` of whose codes are not 0; or the room, where they fit in it.
pub fn fit_places(
    held: usize,
    room: usize,
    ids: &[u64],
    kinds: &[u8],
    classes: &[u32],
    lengths: &[u32],
    class_ids: &[u64],
    loaders: &[u64],
    dumped: &[u8],
    class_kinds: &[u8],
    slot_starts: &[u32],
    slot_ends: &[u32],
    static_starts: &[u32],
    static_ends: &[u32],
    slot_weak: &[u8],
    static_types: &[u8],
    static_values: &[u64],
    codes: &[u32],
    starts: &[u32],
    policy: ReferencePolicy,
) -> u64
    requires held_value { held ≡ held_codes codes.now }
    requires code_tables { CodeTables kinds.now classes.now lengths.now class_kinds.now slot_starts.now slot_ends.now slot_weak.now codes.now starts.now }
    requires class_tables { ClassTables ids.now class_ids.now loaders.now dumped.now static_starts.now static_ends.now static_types.now static_values.now }
    ensures { let n = copied_places ids.now kinds.now classes.now lengths.now
        class_ids.now loaders.now dumped.now class_kinds.now
        slot_starts.now slot_ends.now static_starts.now static_ends.now
        slot_weak.now static_types.now static_values.now codes.now starts.now policy in
        Fits room n result }
{
    if fit::within(
        held,
        room,
        ids,
        kinds,
        classes,
        lengths,
        class_ids,
        loaders,
        dumped,
        slot_starts,
        slot_ends,
        static_starts,
        static_ends,
        static_types,
        static_values,
        codes,
        starts,
    ) {
        return room as u64;
    }
    copied_places(
        ids,
        kinds,
        classes,
        lengths,
        class_ids,
        loaders,
        dumped,
        class_kinds,
        slot_starts,
        slot_ends,
        static_starts,
        static_ends,
        slot_weak,
        static_types,
        static_values,
        codes,
        starts,
        policy,
    )
}
