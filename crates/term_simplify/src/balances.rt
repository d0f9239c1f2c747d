//! Equalities of two sums with numbers, of which each is one of a term and a sum with a number.

ghost use Rattle.std.specs.Prelude.{◌≡◌, ◌<◌, ℕ, IfOk, IfSome, length, option_map};
ghost use Rattle.bv_dag.specs.BitVectors.{bvadd, equal};
ghost use Rattle.bv_dag.specs.Graphs.{Graph, width_of};
ghost use Rattle.term_trees.specs.Growth.{Continues};
ghost use Rattle.term_trees.specs.Trees.{Tree, tree_of, tree_value, IsOfWidth};
ghost use Rattle.term_simplify.specs.Balances as balances;
ghost use Rattle.term_simplify.specs.Balances.{IsWideBalance, balance_at};
ghost use Rattle.term_simplify.specs.Offsets.{wide_offset_at};
ghost use Rattle.term_simplify.specs.Simplified.{balanced};
ghost use Rattle.term_simplify.specs.Steps.{Stands};
ghost use Rattle.term_simplify.specs.WideSums.{IsWideSummand, wide_term};

use crate::builder::Builder;
use crate::known::Known;
use crate::offsets::Summand;
use crate::pairs::numbered_of;
use crate::wide_sums::WideSummand;
use bv_dag::{BinaryOp, Comparison, Node, Word};
use std::alloc::AllocError as NoMemory;

/// A term that is another one and a number. The numbers of the two terms are in that.
#[derive(Clone, Copy, Debug)]
pub(crate) struct WideBalance {
    pub first: WideSummand,
    pub second: WideSummand,
    pub number: Word,
}

impl WideBalance {
    /// How many bits its terms have.
    pub(crate) fn width(&self) -> u32
        ensures { result ≡ self.now.number.width }
    {
        self.number.width()
    }
}

/// The number is added where it is not negative.
fn balance_by(n: Word, o: WideSummand, p: WideSummand) -> WideBalance
    ensures is { (graph : Graph) → balance_at graph result
        ≡ balances.balance_by n (wide_term graph o) (wide_term graph p) }
    ensures of { (graph : Graph) (width : ℕ) → IsWideSummand graph width o
        → IsWideSummand graph width p → IsOfWidth width n → IsWideBalance graph width result }
{
    if n.is_negative() {
        WideBalance {
            first: p,
            second: o,
            number: n.negated(),
        }
    } else {
        WideBalance {
            first: o,
            second: p,
            number: n,
        }
    }
}

/// The equality of two terms with numbers, or both taken from them.
fn balance_with(o: WideSummand, p: WideSummand) -> Option<WideBalance>
    requires { o.number.width ≡ p.number.width }
    ensures is { (graph : Graph) → option_map (balance_at graph) result
        ≡ balances.balance_with o.taken p.taken (wide_offset_at graph o) (wide_offset_at graph p) }
    ensures some { (graph : Graph) (width : ℕ) → IsWideSummand graph width o
        → IsWideSummand graph width p → IfSome result (λ b. IsWideBalance graph width b) }
{
    match (o.taken, p.taken) {
        (false, false) => {
            let number = BinaryOp::Sub.apply(p.number, o.number);
            Some(balance_by(number, o, p))
        }
        (true, true) => {
            let number = BinaryOp::Sub.apply(o.number, p.number);
            Some(balance_by(number, o, p))
        }
        _ => None,
    }
}

/// What an equality of two terms is of a term and a sum with a number, where each of them is one.
pub(crate) fn balance_of(terms: &Known, a: usize, b: usize) -> Option<WideBalance>
    requires first { a < length terms.now.nodes }
    requires second { b < length terms.now.nodes }
    requires wide { width_of terms.now a ≡ width_of terms.now b }
    ensures some { IfSome result (λ c. IsWideBalance terms.now (width_of terms.now a) c) }
    ensures is { option_map (balance_at terms.now) result
        ≡ balances.balance_of (tree_of terms.now a) (tree_of terms.now b) }
{
    match (numbered_of(terms, a), numbered_of(terms, b)) {
        (Some(o), Some(p)) => balance_with(o, p),
        (Some(_), None) => None,
        (None, _) => None,
    }
}

impl Builder {
    /// Whether a term is another one and a number, or only some of the terms that this stands on.
    pub(crate) fn balance(&mut self, width: u32, b: WideBalance) -> Result<usize, NoMemory>
        requires { IsWideBalance self.old width b }
        ensures continues { Continues self.old self.new }
        ensures ok { IfOk result (λ id. Stands self.new id (balanced (balance_at self.old b)) 1
            (λ input. equal (tree_value input (wide_term self.old b.first))
            (bvadd (tree_value input (wide_term self.old b.second)) b.number))) }
    {
        let first = self.widened_term(b.first.by, b.first.term)?;
        let term = self.widened_term(b.second.by, b.second.term)?;
        let sum = self.sum(
            width,
            Summand {
                taken: false,
                term,
                number: b.number,
            },
        )?;
        self.untold_step(Node::Compare(Comparison::Eq, first, sum))
    }
}
