// Of the columns handed to `from_parts`: whether one label is at fault, and the first fault of the targets. `check_parts` tests by these.
#![tactic(auto)]

ghost use Rattle.std.specs.Prelude.{◌≡◌, take};
ghost use Rattle.check_ids.specs.Copying.{fault_says};
ghost use Rattle.rules.specs.Parts.{bad_targets};
ghost use Rattle.check_edge.specs.Edge.{label_fault};

use check_tables::objects;
use rules::Label;

// Whether a label is at fault, where an element's index is to be at least `next`.
pub fn label_fault(names: usize, next: u32, label: u32) -> bool
    ensures { result ≡ label_fault names next label }
{
    if label < Label::LOADER {
        return names <= columns::index(label);
    }
    if label < Label::ARRAY_ELEMENT {
        return false;
    }
    label - Label::ARRAY_ELEMENT < next
}

// The first fault of the targets, of which there are to be as many as labels.
pub fn first_target(targets: &[u32], edges: usize, objects: usize) -> Option<usize>
    ensures { fault_says result ≡ take 1 (bad_targets objects targets.now edges) }
{
    let n = targets.len().min(edges);
    let e = objects::first_root(&targets[..n], objects);
    if e < n || targets.len() != edges {
        return Some(e);
    }
    None
}
