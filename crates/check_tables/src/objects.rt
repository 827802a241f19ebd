// Checks of the objects and of the roots, one by one.
ghost use Rattle.std.specs.Prelude.{◌≡◌, length};
ghost use Rattle.columns.specs.Lists.{first_place};
ghost use Rattle.rules.specs.Verdict.{bad_object, bad_root};
ghost use Rattle.check_tables.specs.Reads.{object_columns, object_fault};

// Whether an object with the id `before` it is at fault. Ids start above 0, so one test finds a zero id and one that does not rise.
#[tactic(auto, unfolding(crate::specs::Reads::object_fault, columns::specs::Lists::any_of, columns::specs::Lists::all_of))]
fn object_fault(before: u64, id: u64, kind: u8, class: u32, len: u32, classes: usize) -> bool
    ensures { result ≡ object_fault before id kind class len classes }
{
    id <= before
        || 3 < kind
        || (kind == 0 && classes <= columns::index(class))
        || (kind == 1 && 268435456 < len)
}

// The first object at fault, or the number of objects.
pub fn first_object(
    ids: &[u64],
    kinds: &[u8],
    classes: &[u32],
    lengths: &[u32],
    class_ids: &[u64],
) -> usize
    requires kinds_len { length kinds.now ≡ length ids.now }
    requires classes_len { length classes.now ≡ length ids.now }
    requires lengths_len { length lengths.now ≡ length ids.now }
    ensures { result ≡ first_place (bad_object (object_columns ids.now kinds.now classes.now lengths.now class_ids.now)) (length ids.now) }
{
    let mut before = 0;
    for o in 0..ids.len() {
        let id = ids[o];
        if object_fault(
            before,
            id,
            kinds[o],
            classes[o],
            lengths[o],
            class_ids.len(),
        ) {
            return o;
        }
        before = id;
    }
    ids.len()
}

// The first root that is no object, or the number of roots.
pub fn first_root(roots: &[u32], objects: usize) -> usize
    ensures { result ≡ first_place (bad_root objects roots.now) (length roots.now) }
{
    roots
        .iter()
        .position(|root| objects <= columns::index(*root))
        .unwrap_or(roots.len())
}
