//! The lines that a certificate lacks.

use bv_dag::Query;
use byte_list::Bytes;
use cert_form::CertLine;
use cert_query::Fault;

/// What is to be put where so many of a certificate's lines are left.
#[derive(Debug, Drop)]
pub enum Put {
    /// A fork's line and a proof behind it, in the place of so many lines.
    Fork {
        left: usize,
        taken: usize,
        lines: Vec<CertLine>,
    },
    /// An assignment of a side that is cut by targets.
    Witness {
        left: usize,
        input: Bytes,
    },
}

/// A fork's line for which no proof was found.
#[derive(Debug, Drop)]
pub struct Unrefuted {
    /// How many of the certificate's lines are left where it is to stand.
    pub left: usize,
    /// In the place of how many of them.
    pub taken: usize,
    pub line: CertLine,
    /// What has to be refuted: it and clauses that do that are to stand behind the line.
    pub question: Query,
}

/// What came of completing a certificate.
#[derive(Debug, Drop)]
pub enum Completed {
    /// It lacks these, in the order in which they are to stand.
    Puts(Vec<Put>),
    Open(Unrefuted),
    /// A line may not stand, whatever is put before it.
    Fault(Fault),
    /// Its regions or its budgets may not stand.
    Heading,
}
