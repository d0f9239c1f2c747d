//! Runs that go on one way at a fork.

ghost use Rattle.std.specs.Prelude.{◌≡◌, IfOk};
ghost use Rattle.run_sides.specs.Narrowing.{IsForced};
ghost use Rattle.cert_audit.specs.Kids.{AreKids, own_ahead};

use crate::taken::Went;
use crate::todo::Todo;
use cert_form::CertLine;
use std::alloc::{AllocError as NoMemory, Global};
use sym_state::{Decided, State};

/// The run goes on with a decision of its next step that is so on all its assignments.
pub(crate) fn go_on<'a>(
    alloc: Global,
    run: &State,
    place: usize,
    decided: Decided,
    rest: &'a [CertLine],
) -> Result<Went<'a>, NoMemory>
    requires { IsForced run.now place decided }
    ensures kids { IfOk result (λ went. AreKids run.now (own_ahead run.now) went.kids.items) }
    ensures rest { IfOk result (λ went. went.rest.now ≡ rest.now) }
{
    let mut on = run.share()?;
    on.know(place, decided);
    let mut kids = Vec::with_capacity(alloc, 1)?;
    kids.push(Todo::Node(on))?;
    Ok(Went { kids, rest })
}
