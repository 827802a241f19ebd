// The passes that turn an object's references into edges, weak targets and missing counts. "Work is done in passes over object ranges; each pass
// hands its weak and missing numbers to the next pass."
#![tactic(auto)]

pub mod account;
pub mod append;
pub mod weak;

ghost use Rattle.std.specs.Prelude.{◌≡◌, ◌+◌, ◌^◌, ◌<◌};
ghost use Rattle.edge_append.specs.Append.{with_edge, with_weak, with_missing};

// Where the next edge and the next weak target go, and how many ids no object has.
#[derive(Clone, Copy)]
pub struct Pass {
    pub edges: usize,
    pub weak: usize,
    pub missing: u64,
}

impl Pass {
    pub fn begun() -> Pass
        ensures { result ≡ record { edges = 0; weak = 0; missing = 0 } }
    {
        Pass {
            edges: 0,
            weak: 0,
            missing: 0,
        }
    }

    pub fn absorb_found(mut self) -> Pass
        requires { self.edges + 1 < 2 ^ 64 }
        ensures { result ≡ with_edge self }
    {
        self.edges += 1;
        self
    }

    pub fn absorb_weak(mut self) -> Pass
        requires { self.weak + 1 < 2 ^ 64 }
        ensures { result ≡ with_weak self }
    {
        self.weak += 1;
        self
    }

    pub fn absorb_missing(mut self) -> Pass
        requires { self.missing + 1 < 2 ^ 64 }
        ensures { result ≡ with_missing self }
    {
        self.missing += 1;
        self
    }
}
