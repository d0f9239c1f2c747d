//! Bytes, as files, texts and inputs have them.
#![tactic(auto)]

mod bytes;

pub use bytes::Bytes;
