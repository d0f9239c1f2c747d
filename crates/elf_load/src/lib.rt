//! Programs in ELF32 files, and the regions of their memory that hold input bytes.
#![tactic(auto)]

mod fitting;
mod header;
mod header_check;
mod image;
pub mod laws;
mod load_error;
mod loading;
mod page;
mod pages;
mod program_check;
mod refused;
mod region;
mod segment_check;
mod unfit;

pub use fitting::fit;
pub use header::{Header, ProgramHeader};
pub use image::Image;
pub use load_error::LoadError;
pub use loading::load;
pub use page::Page;
pub use refused::Refused;
pub use region::{Region, Regions};
pub use unfit::Unfit;
