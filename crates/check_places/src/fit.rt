// Whether a copied input's places surely fit a room, by what costs little: no code is read and no static is looked up.
ghost use Rattle.std.specs.Prelude.{◌≡◌, true, ◌≤◌, length};
ghost use Rattle.check_ids.specs.Copying.{held_codes};
ghost use Rattle.check_places.specs.Placing.{most_places, PartsIn, ClassTables};

use crate::statics;

// All of the codes that are not 0 and every object static and loader of the classes that are found are within the room.
pub(crate) fn within(
    held: usize,
    room: usize,
    ids: &[u64],
    kinds: &[u8],
    classes: &[u32],
    lengths: &[u32],
    class_ids: &[u64],
    loaders: &[u64],
    dumped: &[u8],
    slot_starts: &[u32],
    slot_ends: &[u32],
    static_starts: &[u32],
    static_ends: &[u32],
    static_types: &[u8],
    static_values: &[u64],
    codes: &[u32],
    starts: &[u32],
) -> bool
    requires held_value { held ≡ held_codes codes.now }
    requires parts_in { PartsIn kinds.now classes.now lengths.now slot_starts.now slot_ends.now starts.now (length codes.now) }
    requires class_tables { ClassTables ids.now class_ids.now loaders.now dumped.now static_starts.now static_ends.now static_types.now static_values.now }
    ensures { result ≡ true → most_places ids.now kinds.now classes.now lengths.now
        class_ids.now loaders.now dumped.now slot_starts.now slot_ends.now static_starts.now static_ends.now
        static_types.now static_values.now codes.now starts.now ≤ room }
{
    if room < held {
        return false;
    }
    let most = statics::count_classes(
        ids,
        class_ids,
        loaders,
        dumped,
        static_starts,
        static_ends,
        static_types,
        static_values,
        true,
    );
    most <= (room - held) as u64
        && check_place_steps::in_order(
            kinds,
            classes,
            lengths,
            slot_starts,
            slot_ends,
            codes,
            starts,
        )
}
