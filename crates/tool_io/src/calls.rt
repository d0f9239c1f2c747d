//! Which calls of an object fail.

ghost use Rattle.std.specs.Prelude.{◌≡◌};
ghost use Rattle.tool_io.specs.Calls.{with_call, next_fails, next_number};

use std::marker::Model;

/// How many calls were made, and the numbers of those that fail, counted from 1.
pub(crate) struct CallCount {
    made: u64,
    to_fail: Vec<u64>,
}

impl Drop for CallCount {
    fn drop(self) {
        let Self {
            made: _made,
            to_fail: _to_fail,
        } = self;
    }
}

impl Model for CallCount {
    ghost use Rattle.tool_io.specs.Calls.{Calls};

    ghost Value = { Calls };

    ghost view = { λ c. record { made = c.made; to_fail = c.to_fail.items } };
}

impl CallCount {
    /// No call was made, and these will fail.
    pub fn new(to_fail: Vec<u64>) -> CallCount
        ensures { result ≡ record { made = 0; to_fail = to_fail.items } }
    {
        CallCount { made: 0, to_fail }
    }

    // The number of the next call.
    fn next_number(&self) -> u64
        ensures { result ≡ next_number self.now }
    {
        self.made.saturating_add(1)
    }

    /// Whether the next call is one that fails.
    pub(crate) fn next_fails(&self) -> bool
        ensures { result ≡ next_fails self.now }
    {
        self.to_fail.contains(&self.next_number())
    }

    /// Counts a call.
    pub fn count(&mut self)
        ensures { self.new ≡ with_call self.old }
    {
        self.made = self.next_number();
    }
}
