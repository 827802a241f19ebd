// The answer of the edge stage.
ghost use Rattle.std.specs.Prelude.{◌≡◌};
ghost use Rattle.edge_pass.specs.Stage.{counted};

use edge_append::Pass;

// The counts so far with what the pass came to.
pub(crate) fn counted(c: rules::Counts, q: Pass) -> rules::Counts
    ensures { result ≡ counted c q }
{
    rules::Counts {
        edges: q.edges,
        weak: q.weak,
        dangling: q.missing,
        ..c
    }
}
