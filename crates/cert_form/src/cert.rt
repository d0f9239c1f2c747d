//! A certificate.

use crate::line::CertLine;
use elf_load::Regions;
use std::marker::Model;

/// How much may be spent.
#[derive(Clone, Copy, Debug, PartialEq, Eq)]
pub struct Limits {
    /// The steps of a run.
    pub steps: u32,
    /// The values of a number that a step needs.
    pub targets: u32,
    /// The clauses that are learnt for a question.
    pub conflicts: u32,
    /// The nodes of the fork tree.
    pub nodes: u32,
}

/// What shows that a fork tree covers all runs: where its input bytes stand, what it may spend, and the lines of the walk.
#[derive(Debug)]
pub struct Cert {
    pub regions: Regions,
    pub budgets: Limits,
    pub lines: Vec<CertLine>,
}

impl Drop for Cert {
    fn drop(self) {
        let Self {
            regions: _regions,
            budgets: _budgets,
            lines: _lines,
        } = self;
    }
}

impl Model for Cert {
    ghost use Rattle.cert_form.specs.Certificates.{Certificate};

    ghost Value = { Certificate };

    ghost view = { λ c. record { regions = c.regions; budgets = c.budgets; lines = c.lines.items } };
}
