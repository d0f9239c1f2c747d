//! The memory of symbolic runs: pages of 256 bytes that are shared by copy on write.
#![tactic(auto)]

mod byte;
mod group;
mod groups;
mod page;
mod pages;

pub use byte::Byte;
pub use page::Page;
pub use pages::Pages;
