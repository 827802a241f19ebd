// Filling the three slot columns from slot rows: lent as three columns, or as a slice of structs.
#![tactic(auto)]

mod step;

ghost use Rattle.std.specs.Prelude.{length};
ghost use Rattle.slot_rows.specs.Rows.{Filling, rows_of};

// One slot of a class, as a host lends it.
#[repr(C)]
#[derive(Clone, Copy)]
pub struct SlotRow {
    pub offset: u32,
    pub label: u32,
    pub weak: u8,
}

// Why no rows were written: the buffer that is too small.
#[derive(Clone, Copy)]
pub enum FillError {
    Room(usize),
}

// The rows lent as three columns, of which the shortest says how many rows there are.
pub fn fill_columns(
    from_offsets: &[u32],
    from_labels: &[u32],
    from_weak: &[u8],
    offsets: &mut [u32],
    labels: &mut [u32],
    weak: &mut [u8],
) -> Result<usize, FillError>
    ensures { Filling (rows_of from_offsets.now from_labels.now from_weak.now) (length offsets.old)
        (length labels.old) (length weak.old) result offsets.new labels.new weak.new }
{
    let n = from_offsets
        .len()
        .min(from_labels.len())
        .min(from_weak.len());
    let room = step::room_for(n, offsets.len(), labels.len(), weak.len());
    step::copy(from_offsets, room, offsets);
    step::copy(from_labels, room, labels);
    step::copy(from_weak, room, weak);
    step::settle(n, room, offsets, labels, weak)
}

// The rows lent as a slice of structs, walked once.
pub fn fill_rows(
    rows: &[SlotRow],
    offsets: &mut [u32],
    labels: &mut [u32],
    weak: &mut [u8],
) -> Result<usize, FillError>
    ensures { Filling rows.now (length offsets.old) (length labels.old) (length weak.old) result offsets.new labels.new weak.new }
{
    let n = rows.len();
    let room = step::room_for(n, offsets.len(), labels.len(), weak.len());
    for (i, r) in rows[..room].iter().enumerate() {
        offsets[i] = r.offset;
        labels[i] = r.label;
        weak[i] = r.weak;
    }
    step::settle(n, room, offsets, labels, weak)
}
