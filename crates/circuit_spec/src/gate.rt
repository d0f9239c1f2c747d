//! Gates of two literals.

use cnf_form::Lit;

/// A gate of two literals.
#[derive(Clone, Copy, Debug)]
pub enum Gate {
    And,
    Or,
    Xor,
    /// The first where this literal is true, else the second.
    Mux(Lit),
}
