//! Lines of clauses.

ghost use Rattle.std.specs.Prelude.{◌≡◌, ◌∷◌, false, MatchOption};
ghost use Rattle.cert_form.specs.declared.line.CertLine.TheVariants as line;
ghost use Rattle.cert_query.specs.ClauseLines.{begins_with_clause};

use cert_form::CertLine;
use cnf_form::LogStep;

/// The clause of the first line, if it is a clause's, and the lines behind it.
pub(crate) fn first_clause(lines: &[CertLine]) -> Option<(&LogStep, &[CertLine])>
    ensures { MatchOption result (begins_with_clause lines.now ≡ false)
        (λ found. lines.now ≡ line.Clause found.0.now ∷ found.1.now) }
{
    match lines {
        [CertLine::Clause(learnt), rest @ ..] => Some((learnt.step(), rest)),
        _ => None,
    }
}
