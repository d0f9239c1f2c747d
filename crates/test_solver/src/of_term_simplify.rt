//! The builder of terms: numbers that are folded, terms of an input byte, and operations that few low bits tell.

mod bits;
mod bytes;
mod calls;
mod lifted;
mod narrow;
mod numbers;
mod steps;
