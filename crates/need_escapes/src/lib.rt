// The need of buffer 7 where more fields are listed than there are codes and buffer 9 is too short to rank them. Such a build ends refused, by 7 or by 9:
// which of them needs the exact count, and that takes only the code table.
#![tactic(auto)]

ghost use Rattle.std.specs.Prelude.{◌≡◌, ◌+◌, ◌-◌, ◌≤◌, length};
ghost use Rattle.rules.specs.Labels.{coded};
ghost use Rattle.labels.specs.Coding.{Room, LaidOut};
ghost use Rattle.labels.specs.Fields.{first};
ghost use Rattle.need_escapes.specs.Uncoded.{capped, used_more, Layered, KnownLabels, Escaped};

use labels::code::slot_of;

// So many fields have codes.
const CODED: usize = 32767;

// How often each label is used, up to 65,535, by its place in the table.
#[tactic(auto, using(labels::proofs::Table::slot_within))]
fn count_capped(labels: &[u32], names: usize, table: &mut [u16])
    requires { Room names table.old }
    ensures { table.new ≡ capped names table.old labels.now }
{
    for label in labels {
        let at = slot_of(*label, names);
        table[at] = table[at].saturating_add(1);
    }
}

// How many names, and the loader, are used more than `times` times.
fn used_more(table: &[u16], names: usize, times: usize) -> usize
    requires { Room names table.now }
    ensures { result ≡ used_more names table.now times }
{
    table[..names + 1]
        .iter()
        .filter(|uses| times < usize::from(**uses))
        .count()
}

// The uses of all fields behind the first 32,767 of the ranking, layer by layer: of the fields used more than 0 times, more than once, and so on, those
// that are too many.
fn count_uncoded(table: &[u16], names: usize) -> usize
    requires { Room names table.now × (used_more names table.now 65534 ≤ 32767) }
    ensures { Layered names table.now result }
{
    let mut rows: usize = 0;
    let mut times = 0;
    let mut n = used_more(table, names, times);
    while CODED < n {
        rows += n - CODED;
        times += 1;
        n = used_more(table, names, times);
    }
    rows
}

// The need of buffer 7, where the first 32,767 of the ranking have codes. The elements' escapes are those of a table of zeros, by which no field is
// escaped. The table is left zero.
pub fn slow_escapes(offsets: &[u64], labels: &[u32], names: usize, table: &mut [u16]) -> usize
    requires room { Room names table.old × LaidOut offsets.now (length labels.now) }
    requires known_labels { KnownLabels names labels.now × (length labels.now ≤ 268435456) }
    ensures { Escaped (coded (first names labels.now) offsets.now labels.now (length offsets.now - 1)) table.old result table.new }
{
    columns::zero(table, 0);
    let elements = label_codes::count_escapes(offsets, labels, names, table);
    count_capped(labels, names, table);
    let fields = count_uncoded(table, names);
    columns::zero(table, 0);
    elements + fields
}
