//! Terms that are simplified as they are built.
//!
//! A call finds its answer first, without a change: a term that stands already or one node to be pushed, and how many bits
//! stand above it. Only then is the table written. A shift by a number is made of two or three such terms, an operation of two
//! terms without a bit in common likewise, a product by a number of a few for each of its digits that is not 0, and a quotient or a
//! remainder by a number of some ten for each bit of the dividend. An operation or a test of which few low bits tell the result
//! is made of as many bits of its operands, which are up to two terms more, and widened. Where operands have zeros at their low
//! end, it is made of what stands above these. A sum of two terms with numbers is made of the terms, and then with one number. A
//! test that another term tells is made of that term, an equality of two such sums of a sum, and one that the ends of its operands
//! tell is a bit; these, the least and the greatest value of a term, are found where it is put, and kept.
#![tactic(auto)]

mod above;
mod balances;
mod binaries;
mod builder;
mod calls;
mod choices;
mod comparisons;
mod deciding;
mod divisions;
mod ends;
mod equalities;
mod extensions;
mod intervals;
mod joints;
mod known;
mod lifting;
mod machine;
mod masks;
mod moves;
mod narrowed;
mod narrowing;
mod offsets;
mod operations;
mod pairs;
mod parts;
mod plan;
mod recipe;
mod runs;
mod times;
mod values;
mod wide_sums;
mod zeros;

pub use builder::Builder;
