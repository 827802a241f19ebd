// The check of dumped classes that are found among the objects, and the marks that say which class is found where.
ghost use Rattle.std.specs.Prelude.{◌≡◌, ◌≤◌, ◌<◌, length};
ghost use Rattle.columns.specs.Lists.{any, first_place};
ghost use Rattle.columns.specs.Columns.{zeros};
ghost use Rattle.columns.specs.Ranks.{Rises};
ghost use Rattle.rules.specs.Verdict.{bad_find};
ghost use Rattle.check_tables.specs.Found.{place_for, mark_fault, marking, dumped_at, is_dumped, find_fault, find_columns, marks, marks_if};

// The object at which a class is found if it is dumped, or the number of objects.
pub fn place_for(ids: &[u64], id: u64, dumped: u8) -> usize
    requires { Rises ids.now }
    ensures { result ≡ place_for ids.now id dumped }
{
    if dumped == 1 {
        return lookup::find_sorted(ids, id, ids.len() / 2).unwrap_or(ids.len());
    }
    ids.len()
}

// Whether a class found at o, if that is an object, is at fault: o is no class, or is marked. If not, o is marked with the class.
#[tactic(auto, unfolding(crate::specs::Found::mark_fault, crate::specs::Found::marking, columns::specs::Lists::any_of, columns::specs::Lists::all_of))]
fn mark_class(kinds: &[u8], working: &mut [u64], o: usize, class: usize) -> bool
    requires kinds_in_bounds { length kinds.now < length working.old }
    requires class_bound { class < 18446744073709551615 }
    ensures value { result ≡ mark_fault kinds.now working.old o }
    ensures working_after { working.new ≡ marking kinds.now working.old o class }
{
    if kinds.len() <= o {
        return false;
    }
    if kinds[o] < 3 || 0 < working[o + 1] {
        return true;
    }
    working[o + 1] = class as u64 + 1;
    false
}

// The first class found at fault, or the number of classes; the classes before it are marked.
fn first_marked(
    ids: &[u64],
    kinds: &[u8],
    class_ids: &[u64],
    dumped: &[u8],
    working: &mut [u64],
) -> usize
    requires rises { Rises ids.now }
    requires kinds_len { length kinds.now ≡ length ids.now }
    requires dumped_len { length dumped.now ≡ length class_ids.now }
    requires ids_in_bounds { length ids.now < length working.old }
    requires working_value { working.old ≡ zeros (length working.old) }
    ensures value { result ≡ first_place (bad_find (find_columns ids.now kinds.now class_ids.now dumped.now)) (length class_ids.now) }
    ensures working_after { working.new ≡ marks (find_columns ids.now kinds.now class_ids.now dumped.now) result (length working.old) }
{
    for class in 0..class_ids.len() {
        let o = place_for(ids, class_ids[class], dumped[class]);
        if mark_class(kinds, working, o, class) {
            return class;
        }
    }
    class_ids.len()
}

#[tactic(auto, unfolding(crate::specs::Found::is_dumped, columns::specs::Lists::all_of))]
fn is_dumped(dumped: u8, a: u64, id: u64) -> bool
    ensures { result ≡ is_dumped dumped a id }
{
    dumped == 1 && a == id
}

// Whether a dumped class before this one has the id.
fn dumped_before(class_ids: &[u64], dumped: &[u8], id: u64, class: usize) -> bool
    requires class_in_bounds { class ≤ length class_ids.now }
    requires dumped_len { length dumped.now ≡ length class_ids.now }
    ensures { result ≡ any (dumped_at class_ids.now dumped.now id) class }
{
    (0..class).any(|b| is_dumped(dumped[b], class_ids[b], id))
}

// Whether a class found at o, if that is an object, is at fault, without marks.
#[tactic(auto, unfolding(crate::specs::Found::find_fault, columns::specs::Lists::any_of, columns::specs::Lists::all_of))]
fn find_fault(
    ids: &[u64],
    kinds: &[u8],
    class_ids: &[u64],
    dumped: &[u8],
    o: usize,
    class: usize,
) -> bool
    requires kinds_len { length kinds.now ≡ length ids.now }
    requires dumped_len { length dumped.now ≡ length class_ids.now }
    requires class_in_bounds { class ≤ length class_ids.now }
    ensures { result ≡ find_fault (find_columns ids.now kinds.now class_ids.now dumped.now) o class }
{
    o < ids.len() && (kinds[o] < 3 || dumped_before(class_ids, dumped, ids[o], class))
}

// The first class found at fault, or the number of classes, where there is no room for marks.
fn first_compared(ids: &[u64], kinds: &[u8], class_ids: &[u64], dumped: &[u8]) -> usize
    requires rises { Rises ids.now }
    requires kinds_len { length kinds.now ≡ length ids.now }
    requires dumped_len { length dumped.now ≡ length class_ids.now }
    ensures { result ≡ first_place (bad_find (find_columns ids.now kinds.now class_ids.now dumped.now)) (length class_ids.now) }
{
    for class in 0..class_ids.len() {
        let o = place_for(ids, class_ids[class], dumped[class]);
        if find_fault(ids, kinds, class_ids, dumped, o, class) {
            return class;
        }
    }
    class_ids.len()
}

// The first class found at an object that is no class, or where an earlier class was found; or the number of classes.
pub fn first_find(
    ids: &[u64],
    kinds: &[u8],
    class_ids: &[u64],
    dumped: &[u8],
    working: &mut [u64],
) -> usize
    requires rises { Rises ids.now }
    requires kinds_len { length kinds.now ≡ length ids.now }
    requires dumped_len { length dumped.now ≡ length class_ids.now }
    requires working_value { working.old ≡ zeros (length working.old) }
    ensures value { result ≡ first_place (bad_find (find_columns ids.now kinds.now class_ids.now dumped.now)) (length class_ids.now) }
    ensures working_after { working.new ≡ marks_if (find_columns ids.now kinds.now class_ids.now dumped.now) result (length working.old) }
{
    if ids.len() < working.len() {
        return first_marked(ids, kinds, class_ids, dumped, working);
    }
    first_compared(ids, kinds, class_ids, dumped)
}
