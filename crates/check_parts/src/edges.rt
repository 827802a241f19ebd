// Column 2: the labels.
ghost use Rattle.std.specs.Prelude.{◌≡◌, ◌-◌, length, take};
ghost use Rattle.columns.specs.Lists.{first_place};
ghost use Rattle.check_ids.specs.Copying.{fault_says};
ghost use Rattle.labels.specs.Coding.{LaidOut};
ghost use Rattle.rules.specs.Parts.{bad_label, bad_labels};

// The first label at fault of one object's, or their number.
fn first_in_object(labels: &[u32], names: usize) -> usize
    ensures { result ≡ first_place (bad_label names labels.now) (length labels.now) }
{
    let mut next = 0;
    for (k, label) in labels.iter().enumerate() {
        if check_edge::label_fault(names, next, *label) {
            return k;
        }
        next = labels::code::after(*label, next);
    }
    labels.len()
}

// The first label at fault. No element is carried over to the next object.
pub(crate) fn first_label(names: usize, offsets: &[u64], labels: &[u32]) -> Option<usize>
    requires { LaidOut offsets.now (length labels.now) }
    ensures { fault_says result ≡ take 1 (bad_labels names (length offsets.now - 1) offsets.now labels.now) }
{
    let objects = offsets.len() - 1;
    for o in 0..objects {
        let from = offsets[o] as usize;
        let to = offsets[o + 1] as usize;
        let k = first_in_object(&labels[from..to], names);
        if k < to - from {
            return Some(from + k);
        }
    }
    None
}
