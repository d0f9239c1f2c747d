//! Why a line of a certificate may not stand where it does.

ghost use Rattle.std.specs.Prelude.{◌≡◌};
ghost use Rattle.cert_query.specs.Faults.{fault_at, number_of};

use cert_form::CertLine;

/// Why a line of a certificate may not stand where it does.
#[derive(Clone, Copy, Debug, PartialEq, Eq)]
pub enum Reason {
    /// A question isn't as its own numbers say.
    Text,
    /// Another kind of line must stand here.
    Place,
    /// The question isn't the one that is to be answered.
    Query,
    /// The clauses don't show what they are to show.
    Log,
    /// An assignment isn't one that must stand here.
    Sample,
    /// A budget isn't spent.
    Budget,
    /// A byte has a value that isn't excluded.
    Tried,
}

impl Reason {
    /// The number by which it is told.
    pub fn number(self) -> u32
        ensures { result ≡ number_of self }
    {
        match self {
            Reason::Text => 1,
            Reason::Place => 2,
            Reason::Query => 3,
            Reason::Log => 4,
            Reason::Sample => 5,
            Reason::Budget => 6,
            Reason::Tried => 7,
        }
    }
}

/// The first line that may not stand where it does.
#[derive(Clone, Copy, Debug, PartialEq, Eq)]
pub struct Fault {
    /// How many lines are left from it on: 0 where the certificate ends and a line must stand.
    pub left: usize,
    pub reason: Reason,
}

impl Fault {
    /// The fault that the first of these lines is, or that there is none.
    pub fn at(lines: &[CertLine], reason: Reason) -> Fault
        ensures { result ≡ fault_at lines.now reason }
    {
        Fault {
            left: lines.len(),
            reason,
        }
    }
}
