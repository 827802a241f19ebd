// The most used fields, where more are listed than there are codes.
#![tactic(auto)]

ghost use Rattle.std.specs.Prelude.{◌≡◌, ◌≤◌, min, length};
ghost use Rattle.columns.specs.Columns.{over, zeros};
ghost use Rattle.labels.specs.Coding.{Room};
ghost use Rattle.labels.specs.Fields.{first, Chosen};
ghost use Rattle.label_ranks.specs.Keys.{uses, key_of, key_labels, Keyed, Of32Bits};

use labels::code::{label_at, slot_of};

// How often each label occurs on the edges, by its place in the table.
#[tactic(auto, using(labels::proofs::Table::slot_within))]
pub fn count_uses(labels: &[u32], names: usize, counting: &mut [u64])
    requires { Room names counting.old × (counting.old ≡ zeros (length counting.old)) }
    ensures { counting.new ≡ uses names counting.old labels.now }
{
    for label in labels {
        counting[slot_of(*label, names)] += 1;
    }
}

// Keys rise where use falls, and with the label where it is the same.
fn key_of(count: u64, label: u32) -> u64
    requires { count ≤ 4294967295 }
    ensures { result ≡ key_of count label }
{
    (4294967295 - count) * 4294967296 + u64::from(label)
}

// The keys of the labels that occur; the answer is how many they are.
fn write_keys(counting: &[u64], names: usize, ranking: &mut [u64]) -> usize
    requires { Room names counting.now × Room names ranking.old × Of32Bits counting.now }
    ensures { Keyed names counting.now ranking.old result ranking.new }
{
    let mut k = 0;
    for i in 0..names + 1 {
        let count = counting[i];
        if 0 < count {
            ranking[k] = key_of(count, label_at(i, names));
            k += 1;
        }
    }
    k
}

// The labels of the first n keys.
fn write_ranked(ranking: &[u64], n: usize, fields: &mut [u32])
    requires { (n ≤ length ranking.now) × (n ≤ length fields.old) }
    ensures { fields.new ≡ over (key_labels ranking.now n) fields.old }
{
    for i in 0..n {
        fields[i] = (ranking[i] % 4294967296) as u32;
    }
}

// As many fields as there are codes.
pub fn coded_of(used: usize) -> usize
    ensures { result ≡ min 32767 used }
{
    used.min(32767)
}

// The fields that have codes where more than 32,767 are listed: the most used on the edges; the answer is how many they are.
pub fn rank_fields(
    labels: &[u32],
    names: usize,
    fields: &mut [u32],
    counting: &mut [u64],
    ranking: &mut [u64],
) -> usize
    requires { Room names counting.old × Room names ranking.old × (length labels.now ≤ 4294967295) × (length (first names labels.now) ≤ length fields.old) }
    ensures { Chosen (first names labels.now) fields.old result fields.new }
{
    columns::zero(counting, 0);
    count_uses(labels, names, counting);
    let used = write_keys(counting, names, ranking);
    sort::sort(&mut ranking[0..used]);
    let n = coded_of(used);
    write_ranked(ranking, n, fields);
    n
}
