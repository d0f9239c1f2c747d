//! How the runs of a leaf end, as its heading says it.

use rv_decode::Trap;

/// How the runs end. Of an exit the status stands further below, and of runs that were cut the budget further above.
#[derive(Clone, Copy, Debug, PartialEq, Eq)]
pub enum Ending {
    Exit,
    Trapped(Trap),
    Running,
}
