// The steps of filling.
ghost use Rattle.std.specs.Prelude.{◌≡◌, ◌≤◌, ◌++◌, length, take, drop};
ghost use Rattle.slot_rows.specs.Rows.{room_for, RowsSettled};

use super::FillError;

// How many of n rows are written: a column that is too short for all takes none.
pub(crate) fn room_for(n: usize, a: usize, b: usize, c: usize) -> usize
    ensures room { result ≡ room_for n a b c }
    ensures within { (result ≤ n) × (result ≤ a) × (result ≤ b) × (result ≤ c) }
{
    if a.min(b).min(c) < n { 0 } else { n }
}

// The first n numbers of a column, written over the front of another, number by number: std's copy would ask a host for C's `memmove`.
pub(crate) fn copy<T: Copy>(from: &[T], n: usize, to: &mut [T])
    requires n_in_bounds { n ≤ length from.now }
    requires n_in_bounds_2 { n ≤ length to.old }
    ensures { to.new ≡ take n from.now ++ drop n to.old }
{
    for i in 0..n {
        to[i] = from[i];
    }
}

// Clears the ends behind the rows written, which is all where there is no room, and answers.
pub(crate) fn settle(
    n: usize,
    room: usize,
    offsets: &mut [u32],
    labels: &mut [u32],
    weak: &mut [u8],
) -> Result<usize, FillError>
    ensures { RowsSettled n room result offsets.old labels.old weak.old offsets.new labels.new weak.new }
{
    columns::zero(offsets, room);
    columns::zero(labels, room);
    columns::zero(weak, room);
    if room < n {
        return Err(FillError::Room(17));
    }
    Ok(n)
}
