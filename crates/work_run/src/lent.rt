//! A worker that is lent.

use fork_tree::{Parts, Work};
use std::alloc::{AllocError as NoMemory, Global};
use std::sync::Wait;
use work_gate::Gate;

/// A worker that is lent, so that a tree and several threads use one.
#[derive(Drop)]
pub struct Lent<'a, W: Work> {
    pub worker: &'a W,
}

impl<'a, W: Work> Work for Lent<'a, W> {
    type State = W::State;

    type Leaf = W::Leaf;

    ghost rules = { λ lent. W.rules lent.worker.now };

    fn work(
        &self,
        rt: &impl Wait,
        alloc: Global,
        gate: &impl Gate,
        by: u32,
        state: &W::State,
    ) -> Result<Parts<W::State, W::Leaf>, NoMemory> {
        self.worker.work(rt, alloc, gate, by, state)
    }

    fn cut_nodes(&self, alloc: Global, run: W::State, nodes: u32) -> Result<W::Leaf, NoMemory> {
        self.worker.cut_nodes(alloc, run, nodes)
    }
}
