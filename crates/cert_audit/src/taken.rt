//! What lines make of what the walk comes to, and the lines behind them.

use crate::todo::Todo;
use cert_form::CertLine;
use leaf_part::LeafPart;

/// A leaf.
#[derive(Drop)]
pub struct Taken<'a> {
    pub leaf: LeafPart,
    pub rest: &'a [CertLine],
}

/// What has come in the place of a run at a fork.
#[derive(Drop)]
pub struct Went<'a> {
    pub kids: Vec<Todo>,
    pub rest: &'a [CertLine],
}

/// A leaf, or what has come in the place of a node.
#[derive(Drop)]
pub enum Visited<'a> {
    Leaf(Taken<'a>),
    Fork(Went<'a>),
}
