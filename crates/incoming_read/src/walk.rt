// Reading the labels of one object in order.
ghost use Rattle.std.specs.Prelude.{◌≡◌, ◌-◌, ◌≤◌, length};
ghost use Rattle.labels.specs.Reading.{coded_in};
ghost use Rattle.incoming_read.specs.Steps.{walks_past};

use labels::Codes;

// Whether the labels of the edges from `start` up to `end` can be read, each by the index that those before it leave.
pub(crate) fn labels_read(labels: Codes<'_>, start: usize, end: usize) -> bool
    requires { (start ≤ end) × (end ≤ length labels.codes.now) }
    ensures { result ≡ walks_past (coded_in labels.entry) start (end - start) }
{
    let mut next = 0;
    for edge in start..end {
        let Ok(label) = labels::read::read_code(
            labels.codes[edge],
            edge as u64,
            next,
            labels.fields,
            labels.escape_at,
            labels.escape_label,
        ) else {
            return false;
        };
        next = labels::code::after(label.0, next);
    }
    true
}
