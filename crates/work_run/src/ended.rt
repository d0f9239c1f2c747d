//! States that were worked to their end, on their way back to who made them.

use std::alloc::{AllocError as NoMemory, Global};
use std::sync::Arc;

/// Who made each node, and for each worker the states that it made and others have ended. A worker lets go of its own: an allocator
/// takes back fastest in a thread what it gave out in that thread. No contract rests on this: where memory is refused, or it isn't
/// known who made a node, whoever ended a state lets go of it.
pub(crate) struct Ended<S: Drop> {
    makers: Vec<u32>,
    lists: Vec<Vec<Arc<S, Global>>>,
}

impl<S: Drop> Drop for Ended<S> {
    fn drop(self) {
        let Self {
            makers: _makers,
            lists: _lists,
        } = self;
    }
}

impl<S: Drop> Ended<S> {
    /// No state yet, of so many workers.
    pub(crate) fn new(alloc: Global, workers: u32) -> Result<Ended<S>, NoMemory> {
        let mut lists = Vec::new(alloc);
        for _ in 0..workers {
            lists.push(Vec::new(alloc))?;
        }
        Ok(Ended {
            makers: Vec::new(alloc),
            lists,
        })
    }

    /// Notes who made the nodes that aren't known yet, up to so many.
    pub(crate) fn note(&mut self, nodes: usize, by: u32) {
        for _ in self.makers.len()..nodes {
            if self.makers.push(by).is_err() {
                return;
            }
        }
    }

    /// Puts the state of a node that this worker ended on its way back, where another made it, and gives this worker one of its
    /// own, to be let go of behind the turn.
    pub(crate) fn exchange(
        &mut self,
        by: u32,
        node: usize,
        state: Arc<S, Global>,
    ) -> Option<Arc<S, Global>> {
        let maker = match self.makers.get(node) {
            Some(maker) => *maker,
            None => by,
        };
        if maker == by {
            return Some(state);
        }
        if let Some(list) = self.lists.get_mut(maker as usize) {
            if let Err(refused) = list.push(state) {
                return Some(refused.value);
            }
        }
        let own = self.lists.get_mut(by as usize)?;
        own.pop()
    }
}
