//! Tests of the texts that are read and written, and over whole runs of the tool.
#![tactic(auto)]

#[cfg(test)]
mod certificates;
#[cfg(test)]
mod of_cert_audit;
#[cfg(test)]
mod of_cert_query;
#[cfg(test)]
mod of_cert_text;
#[cfg(test)]
mod of_replay_core;
#[cfg(test)]
mod of_report_text;
#[cfg(test)]
mod of_smt_text;
#[cfg(test)]
mod of_test_files;
#[cfg(test)]
mod of_tool_io;
#[cfg(test)]
mod of_tool_top;
#[cfg(test)]
mod of_tool_words;
