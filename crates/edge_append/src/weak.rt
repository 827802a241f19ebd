// The weak pairs of one object: a run of the two weak columns. The step stands in a crate of its own, and has its name here.
pub use edge_weak::close_run;
