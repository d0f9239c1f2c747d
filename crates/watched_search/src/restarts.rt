//! Restarts: after some conflicts a search begins again with the clauses that it has learnt, and after half as many
//! more the next time.

ghost use Rattle.std.specs.Prelude.{◌≡◌, ◌↔◌, ◌≤◌, ◌+◌, IsTrue, true, false};

const FIRST: u32 = 100;

/// The conflicts since the last restart, and after how many the next comes.
#[derive(Debug)]
pub struct Restarts {
    since: u32,
    limit: u32,
}

impl Drop for Restarts {
    fn drop(self) {
        let Self {
            since: _since,
            limit: _limit,
        } = self;
    }
}

impl Restarts {
    pub fn new() -> Restarts {
        Restarts {
            since: 0,
            limit: FIRST,
        }
    }

    /// Counts a conflict, and says whether to begin again.
    pub fn is_due(&mut self) -> bool
        ensures due { IsTrue result ↔ self.old.limit ≤ self.old.since + 1 }
        ensures again { result ≡ true → self.new.since ≡ 0 }
        ensures counted { result ≡ false → self.new.since ≡ self.old.since + 1 }
    {
        self.since = self.since.saturating_add(1);
        if self.since < self.limit {
            return false;
        }
        self.since = 0;
        self.limit = self.limit.saturating_add(self.limit / 2);
        true
    }
}
