//! The row of one term.

use cnf_form::Lit;
use std::marker::Model;

/// The literals of one term, the lowest bit first.
#[derive(Debug, Drop)]
pub struct Row {
    pub(crate) literals: Vec<Lit>,
}

impl Model for Row {
    ghost use Rattle.std.specs.Prelude.{List};
    ghost use Rattle.cnf_form.specs.Literals.{Literal};

    ghost Value = { List Literal };

    ghost view = { λ r. r.literals.items };
}
