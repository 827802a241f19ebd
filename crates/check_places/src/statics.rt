// The places of the classes that are found: of a raw input all their object statics and their loaders, of a copied one those that lead to an object.
ghost use Rattle.std.specs.Prelude.{◌≡◌, ◌-◌, ◌≤◌, ◌<◌, length};
ghost use Rattle.columns.specs.Lists.{one, total};
ghost use Rattle.columns.specs.Ranks.{Rises};
ghost use Rattle.check_places.specs.Placing.{is_held, static_held, one_static, class_places, ClassTables};

use check_tables::found;

// Whether an id has a place: every one, or else one that is that of an object.
#[tactic(auto, using(crate::proofs::Counting::sought_found), unfolding(crate::specs::Placing::is_held, columns::specs::Lists::any_of, columns::specs::Lists::all_of))]
fn is_held(ids: &[u64], id: u64, every: bool) -> bool
    requires { Rises ids.now }
    ensures { result ≡ is_held every ids.now id }
{
    every || (id != 0 && lookup::find_sorted(ids, id, ids.len() / 2).is_ok())
}

#[tactic(auto, unfolding(crate::specs::Placing::static_held, columns::specs::Lists::all_of))]
fn static_held(ids: &[u64], kind: u8, value: u64, every: bool) -> bool
    requires { Rises ids.now }
    ensures { result ≡ static_held every ids.now kind value }
{
    kind == 2 && is_held(ids, value, every)
}

// The object statics from a place up to another.
fn count_statics(
    ids: &[u64],
    static_types: &[u8],
    static_values: &[u64],
    from: usize,
    to: usize,
    every: bool,
) -> u64
    requires rises { Rises ids.now }
    requires static_values_len { length static_values.now ≡ length static_types.now }
    requires from_le_to { from ≤ to }
    requires to_in_bounds { to ≤ length static_types.now }
    ensures value { result ≡ total (one_static every ids.now static_types.now static_values.now from) (to - from) }
    ensures upper_bound { result ≤ to - from }
{
    let mut sum: u64 = 0;
    for i in from..to {
        sum += u64::from(static_held(ids, static_types[i], static_values[i], every));
    }
    sum
}

// The object statics and the loader of a class, if it is found.
#[tactic(auto, unfolding(crate::specs::Placing::class_places))]
fn class_places(
    ids: &[u64],
    class_ids: &[u64],
    loaders: &[u64],
    dumped: &[u8],
    static_starts: &[u32],
    static_ends: &[u32],
    static_types: &[u8],
    static_values: &[u64],
    class: usize,
    every: bool,
) -> u64
    requires class_tables { ClassTables ids.now class_ids.now loaders.now dumped.now static_starts.now static_ends.now static_types.now static_values.now }
    requires class_in_bounds { class < length class_ids.now }
    ensures value { result ≡ class_places every ids.now class_ids.now loaders.now dumped.now static_starts.now static_ends.now
        static_types.now static_values.now class }
    ensures upper_bound { result ≤ 4294967296 }
{
    if found::place_for(ids, class_ids[class], dumped[class]) < ids.len() {
        let from = columns::index(static_starts[class]);
        let to = columns::index(static_ends[class]);
        let statics = count_statics(ids, static_types, static_values, from, to, every);
        return statics + u64::from(is_held(ids, loaders[class], every));
    }
    0
}

// Those of all classes that are found.
pub(crate) fn count_classes(
    ids: &[u64],
    class_ids: &[u64],
    loaders: &[u64],
    dumped: &[u8],
    static_starts: &[u32],
    static_ends: &[u32],
    static_types: &[u8],
    static_values: &[u64],
    every: bool,
) -> u64
    requires { ClassTables ids.now class_ids.now loaders.now dumped.now static_starts.now static_ends.now static_types.now static_values.now }
    ensures value { result ≡ total (class_places every ids.now class_ids.now loaders.now dumped.now static_starts.now static_ends.now
        static_types.now static_values.now) (length class_ids.now) }
    ensures upper_bound { result ≤ 288230376151711744 }
{
    let mut sum: u64 = 0;
    for class in 0..class_ids.len() {
        sum += class_places(
            ids,
            class_ids,
            loaders,
            dumped,
            static_starts,
            static_ends,
            static_types,
            static_values,
            class,
            every,
        );
    }
    sum
}
