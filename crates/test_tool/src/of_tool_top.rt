//! Tests over whole runs of the tool.

mod audits;
mod inputs;
mod instructions;
mod nodes;
mod refusals;
mod replays;
mod rows;
pub(crate) mod runs;
mod upgrades;
mod workers;
