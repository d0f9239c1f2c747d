//! Terms unfolded to trees: what a term means apart from the graph that it stands in.
//!
//! It has no code but laws. Its definitions stand in `specs/`: `Trees` has trees, their widths and values,
//! `TreeInputs` the input bytes that they name, `TreeSlices` which asserted terms matter for one of them, `Subsets` says when a
//! condition asks no more than another, and `Growth` when a graph is another one with more terms.
#![tactic(auto)]

pub mod laws;
