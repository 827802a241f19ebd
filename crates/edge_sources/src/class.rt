// The references of a class: "its object statics in order, label the name, then the loader if found."
ghost use Rattle.std.specs.Prelude.{◌+◌, ◌≤◌, ◌<◌, length};
ghost use Rattle.columns.specs.Lists.{collect};
ghost use Rattle.edge_append.specs.Append.{EdgeRoom, Appended};
ghost use Rattle.edge_append.specs.Held.{static_ref_at, static_from, StaticsIn, statics_at, loader_at};

use edge_append::{Pass, append};

// The type of a static that is an object.
const OBJECT: u8 = 2;

// The static at a place, if it is an object.
fn append_static(
    s: Pass,
    place: usize,
    ids: &[u64],
    static_names: &[u32],
    static_types: &[u8],
    static_values: &[u64],
    short: &[u16],
    scale: u32,
    targets: &mut [u32],
    labels: &mut [u32],
    weak_to: &mut [u32],
) -> Pass
    requires place_in_bounds { (place < length static_names.now) × (place < length static_types.now) × (place < length static_values.now) }
    requires edge_room { EdgeRoom ids.now (static_ref_at static_names.now static_types.now static_values.now place) s
        (length targets.old) (length labels.old) (length weak_to.old) }
    ensures { Appended ids.now (static_ref_at static_names.now static_types.now static_values.now place) s result targets.old
        labels.old weak_to.old targets.new labels.new weak_to.new }
{
    if static_types[place] != OBJECT {
        return s;
    }
    let label = rules::Label::field(static_names[place]);
    append::append(
        s,
        append::Source::Static as usize,
        label.0,
        true,
        static_values[place],
        ids,
        short,
        scale,
        targets,
        labels,
        weak_to,
    )
}

fn statics(
    from: Pass,
    first: usize,
    count: usize,
    ids: &[u64],
    static_names: &[u32],
    static_types: &[u8],
    static_values: &[u64],
    short: &[u16],
    scale: u32,
    targets: &mut [u32],
    labels: &mut [u32],
    weak_to: &mut [u32],
) -> Pass
    requires count_in_bounds { (first + count ≤ length static_names.now) × (first + count ≤ length static_types.now) × (first + count ≤ length static_values.now) }
    requires edge_room { EdgeRoom ids.now (collect (static_from static_names.now static_types.now static_values.now first) count) from (length targets.old)
        (length labels.old) (length weak_to.old) }
    ensures { Appended ids.now (collect (static_from static_names.now static_types.now static_values.now first) count) from result
        targets.old labels.old weak_to.old targets.new labels.new weak_to.new }
{
    let mut s = from;
    for k in 0..count {
        s = append_static(
            s,
            first + k,
            ids,
            static_names,
            static_types,
            static_values,
            short,
            scale,
            targets,
            labels,
            weak_to,
        );
    }
    s
}

// The statics of the class that is found at an object: `mark` is the class and one, 0 for none.
pub fn found_statics(
    s: Pass,
    mark: usize,
    ids: &[u64],
    static_starts: &[u32],
    static_ends: &[u32],
    static_names: &[u32],
    static_types: &[u8],
    static_values: &[u64],
    short: &[u16],
    scale: u32,
    targets: &mut [u32],
    labels: &mut [u32],
    weak_to: &mut [u32],
) -> Pass
    requires statics_in { StaticsIn static_starts.now static_ends.now (length static_names.now) (length static_types.now) (length static_values.now) mark }
    requires edge_room { EdgeRoom ids.now (statics_at static_starts.now static_ends.now static_names.now static_types.now static_values.now mark) s
        (length targets.old) (length labels.old) (length weak_to.old) }
    ensures { Appended ids.now (statics_at static_starts.now static_ends.now static_names.now static_types.now
        static_values.now mark) s result targets.old labels.old weak_to.old targets.new labels.new weak_to.new }
{
    if mark == 0 {
        return s;
    }
    let first = columns::index(static_starts[mark - 1]);
    let count = columns::index(static_ends[mark - 1]) - first;
    statics(
        s,
        first,
        count,
        ids,
        static_names,
        static_types,
        static_values,
        short,
        scale,
        targets,
        labels,
        weak_to,
    )
}

// Its loader: "a missing static is dangling; a missing loader is not."
pub fn found_loader(
    s: Pass,
    mark: usize,
    ids: &[u64],
    loaders: &[u64],
    short: &[u16],
    scale: u32,
    targets: &mut [u32],
    labels: &mut [u32],
    weak_to: &mut [u32],
) -> Pass
    requires mark_in_bounds { 0 < mark → mark ≤ length loaders.now }
    requires edge_room { EdgeRoom ids.now (loader_at loaders.now mark) s (length targets.old) (length labels.old) (length weak_to.old) }
    ensures { Appended ids.now (loader_at loaders.now mark) s result targets.old labels.old weak_to.old targets.new labels.new weak_to.new }
{
    if mark == 0 {
        return s;
    }
    let label = rules::Label::loader();
    append::append(
        s,
        append::Source::Loader as usize,
        label.0,
        true,
        loaders[mark - 1],
        ids,
        short,
        scale,
        targets,
        labels,
        weak_to,
    )
}
