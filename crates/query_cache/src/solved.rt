//! A question with its answer.

ghost use Rattle.std.specs.Prelude.{◌≡◌};

use crate::fingerprinted::Fingerprinted;
use crate::satisfiability::Satisfiability;
use std::marker::Model;

/// A question with an answer that is true of it.
#[derive(Debug)]
pub struct Solved {
    query: Fingerprinted,
    answer: Satisfiability,
}

impl Drop for Solved {
    fn drop(self) {
        let Self {
            query: _query,
            answer: _answer,
        } = self;
    }
}

impl Model for Solved {
    ghost use Rattle.query_cache.specs.Answers.{Answered, IsAnswer};

    ghost Value = { Answered };

    ghost view = { λ s. record { query = s.query; answer = s.answer } };

    ghost invariant = { λ s. IsAnswer s.query s.answer };
}

impl Solved {
    ghost use Rattle.query_cache.specs.Answers.{IsAnswer};

    pub fn new(query: Fingerprinted, answer: Satisfiability) -> Solved
        requires { IsAnswer query answer }
        ensures { result ≡ record { query = query; answer = answer } }
    {
        Solved { query, answer }
    }

    pub fn query(&self) -> &Fingerprinted
        ensures { result.now ≡ self.now.query }
    {
        &self.query
    }

    pub fn answer(&self) -> &Satisfiability
        ensures value { result.now ≡ self.now.answer }
        ensures right { IsAnswer self.now.query self.now.answer }
    {
        &self.answer
    }

    /// The question and its answer, each on its own.
    pub fn into_parts(self) -> (Fingerprinted, Satisfiability)
        ensures query { result.0 ≡ self.query }
        ensures answer { result.1 ≡ self.answer }
        ensures right { IsAnswer result.0 result.1 }
    {
        let Self { query, answer } = self;
        (query, answer)
    }
}
