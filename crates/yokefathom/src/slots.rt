// The three slot columns of a schema from slot rows, which a host lends as structs or as columns.
ghost use Rattle.std.specs.Prelude.{◌≡◌, length};
ghost use Rattle.slot_rows.specs.Rows.{filled_says, left, rows_of};
ghost use Rattle.answer_numbers.specs.Told.{told};
ghost use Rattle.yokefathom.specs.Calls.{SlotsTold};

use slot_rows::{FillError, SlotRow};

// The rows written, zeros behind them; or ROOM, and all three columns zero.
#[unsafe(no_mangle)]
pub extern "C" fn yokefathom_fill_rows(
    rows: &[SlotRow],
    offsets: &mut [u32],
    labels: &mut [u32],
    weak: &mut [u8],
    answer: &mut [u64; 4],
)
    ensures { SlotsTold (left rows.now (length offsets.old) (length labels.old) (length weak.old))
        answer.new offsets.new labels.new weak.new }
{
    let filled = slot_rows::fill_rows(rows, offsets, labels, weak);
    tell(filled, answer);
}

// The same of rows that are lent as columns. The shortest says how many rows there are, so a host lends columns of one length.
#[unsafe(no_mangle)]
pub extern "C" fn yokefathom_fill_columns(
    from_offsets: &[u32],
    from_labels: &[u32],
    from_weak: &[u8],
    offsets: &mut [u32],
    labels: &mut [u32],
    weak: &mut [u8],
    answer: &mut [u64; 4],
)
    ensures { let rows = rows_of from_offsets.now from_labels.now from_weak.now in
        let filled = left rows (length offsets.old) (length labels.old) (length weak.old) in
        SlotsTold filled answer.new offsets.new labels.new weak.new }
{
    let filled = slot_rows::fill_columns(
        from_offsets,
        from_labels,
        from_weak,
        offsets,
        labels,
        weak,
    );
    tell(filled, answer);
}

// What filling answered, as numbers.
fn tell(filled: Result<usize, FillError>, answer: &mut [u64; 4])
    ensures { answer.new ≡ told 4 (filled_says filled) }
{
    *answer = answer_builds::filled(filled);
}
