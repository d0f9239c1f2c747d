//! The texts of a report beside those of its leaves and tests: events, what was spent, the report's JSON, the line said,
//! and the names of the files; and what stands before them: leaves by rank, and the test that a sample makes.
#![tactic(auto)]

mod event_lines;
mod file_names;
pub mod laws;
mod learnt;
mod leaves;
mod ranking;
mod report;
mod report_json;
mod reported;
mod sample_test;
mod spent;
mod summary;

pub use event_lines::write_events;
pub use file_names::{events_name, leaf_name, report_name, spent_name, test_name};
pub use learnt::write_conflicts;
pub use leaves::HasPart;
pub use ranking::{RankedLeaf, sort_by_rank};
pub use report::{Report, make_report};
pub use report_json::write_report;
pub use reported::Reported;
pub use sample_test::make_test;
pub use spent::{write_nodes, write_targets};
pub use summary::{Summary, summarize, summary_line};
