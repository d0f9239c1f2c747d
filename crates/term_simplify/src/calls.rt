//! A call for each kind of term. Each answers the place of the simplified term; after want of memory nothing has changed.

ghost use Rattle.std.specs.Prelude.{◌≡◌, IfOk, OnErr};
ghost use Rattle.bv_dag.specs.Nodes.{Fits, widths_of};
ghost use Rattle.term_simplify.specs.Builds.{BuildsNode};

use crate::builder::Builder;
use bv_dag::{BinaryOp, Comparison, Node};
use std::alloc::AllocError as NoMemory;

impl Builder {
    /// A number of so many bits.
    pub fn num(&mut self, width: u32, value: u64) -> Result<usize, NoMemory>
        requires { Fits self.old.inputs (widths_of self.old.nodes) (Node.Num width value) }
        ensures ok { IfOk result (BuildsNode self.old self.new (Node.Num width value)) }
        ensures err { OnErr result (self.new ≡ self.old) }
    {
        self.build(Node::Num { width, value })
    }

    /// The input byte at an index.
    pub fn input(&mut self, index: usize) -> Result<usize, NoMemory>
        requires { Fits self.old.inputs (widths_of self.old.nodes) (Node.Input index) }
        ensures ok { IfOk result (BuildsNode self.old self.new (Node.Input index)) }
        ensures err { OnErr result (self.new ≡ self.old) }
    {
        self.build(Node::Input(index))
    }

    /// The complement of a term.
    pub fn not(&mut self, a: usize) -> Result<usize, NoMemory>
        requires { Fits self.old.inputs (widths_of self.old.nodes) (Node.Not a) }
        ensures ok { IfOk result (BuildsNode self.old self.new (Node.Not a)) }
        ensures err { OnErr result (self.new ≡ self.old) }
    {
        self.build(Node::Not(a))
    }

    /// The negative of a term.
    pub fn neg(&mut self, a: usize) -> Result<usize, NoMemory>
        requires { Fits self.old.inputs (widths_of self.old.nodes) (Node.Neg a) }
        ensures ok { IfOk result (BuildsNode self.old self.new (Node.Neg a)) }
        ensures err { OnErr result (self.new ≡ self.old) }
    {
        self.build(Node::Neg(a))
    }

    /// The sum of two terms.
    pub fn add(&mut self, a: usize, b: usize) -> Result<usize, NoMemory>
        requires { Fits self.old.inputs (widths_of self.old.nodes) (Node.Binary BinaryOp.Add a b) }
        ensures ok { IfOk result (BuildsNode self.old self.new (Node.Binary BinaryOp.Add a b)) }
        ensures err { OnErr result (self.new ≡ self.old) }
    {
        self.build(Node::Binary(BinaryOp::Add, a, b))
    }

    /// The difference of two terms.
    pub fn sub(&mut self, a: usize, b: usize) -> Result<usize, NoMemory>
        requires { Fits self.old.inputs (widths_of self.old.nodes) (Node.Binary BinaryOp.Sub a b) }
        ensures ok { IfOk result (BuildsNode self.old self.new (Node.Binary BinaryOp.Sub a b)) }
        ensures err { OnErr result (self.new ≡ self.old) }
    {
        self.build(Node::Binary(BinaryOp::Sub, a, b))
    }

    /// The product of two terms.
    pub fn mul(&mut self, a: usize, b: usize) -> Result<usize, NoMemory>
        requires { Fits self.old.inputs (widths_of self.old.nodes) (Node.Binary BinaryOp.Mul a b) }
        ensures ok { IfOk result (BuildsNode self.old self.new (Node.Binary BinaryOp.Mul a b)) }
        ensures err { OnErr result (self.new ≡ self.old) }
    {
        self.build(Node::Binary(BinaryOp::Mul, a, b))
    }

    /// The quotient of two terms without sign: all ones where the second is 0.
    pub fn udiv(&mut self, a: usize, b: usize) -> Result<usize, NoMemory>
        requires { Fits self.old.inputs (widths_of self.old.nodes) (Node.Binary BinaryOp.Udiv a b) }
        ensures ok { IfOk result (BuildsNode self.old self.new (Node.Binary BinaryOp.Udiv a b)) }
        ensures err { OnErr result (self.new ≡ self.old) }
    {
        self.build(Node::Binary(BinaryOp::Udiv, a, b))
    }

    /// The remainder of two terms without sign: the first where the second is 0.
    pub fn urem(&mut self, a: usize, b: usize) -> Result<usize, NoMemory>
        requires { Fits self.old.inputs (widths_of self.old.nodes) (Node.Binary BinaryOp.Urem a b) }
        ensures ok { IfOk result (BuildsNode self.old self.new (Node.Binary BinaryOp.Urem a b)) }
        ensures err { OnErr result (self.new ≡ self.old) }
    {
        self.build(Node::Binary(BinaryOp::Urem, a, b))
    }

    /// The bits that two terms have in common.
    pub fn and(&mut self, a: usize, b: usize) -> Result<usize, NoMemory>
        requires { Fits self.old.inputs (widths_of self.old.nodes) (Node.Binary BinaryOp.And a b) }
        ensures ok { IfOk result (BuildsNode self.old self.new (Node.Binary BinaryOp.And a b)) }
        ensures err { OnErr result (self.new ≡ self.old) }
    {
        self.build(Node::Binary(BinaryOp::And, a, b))
    }

    /// The bits that one of two terms has.
    pub fn or(&mut self, a: usize, b: usize) -> Result<usize, NoMemory>
        requires { Fits self.old.inputs (widths_of self.old.nodes) (Node.Binary BinaryOp.Or a b) }
        ensures ok { IfOk result (BuildsNode self.old self.new (Node.Binary BinaryOp.Or a b)) }
        ensures err { OnErr result (self.new ≡ self.old) }
    {
        self.build(Node::Binary(BinaryOp::Or, a, b))
    }

    /// The bits in which two terms differ.
    pub fn xor(&mut self, a: usize, b: usize) -> Result<usize, NoMemory>
        requires { Fits self.old.inputs (widths_of self.old.nodes) (Node.Binary BinaryOp.Xor a b) }
        ensures ok { IfOk result (BuildsNode self.old self.new (Node.Binary BinaryOp.Xor a b)) }
        ensures err { OnErr result (self.new ≡ self.old) }
    {
        self.build(Node::Binary(BinaryOp::Xor, a, b))
    }

    /// A term shifted to the left by another.
    pub fn shl(&mut self, a: usize, b: usize) -> Result<usize, NoMemory>
        requires { Fits self.old.inputs (widths_of self.old.nodes) (Node.Binary BinaryOp.Shl a b) }
        ensures ok { IfOk result (BuildsNode self.old self.new (Node.Binary BinaryOp.Shl a b)) }
        ensures err { OnErr result (self.new ≡ self.old) }
    {
        self.build(Node::Binary(BinaryOp::Shl, a, b))
    }

    /// A term shifted to the right by another, filled with zeros.
    pub fn lshr(&mut self, a: usize, b: usize) -> Result<usize, NoMemory>
        requires { Fits self.old.inputs (widths_of self.old.nodes) (Node.Binary BinaryOp.Lshr a b) }
        ensures ok { IfOk result (BuildsNode self.old self.new (Node.Binary BinaryOp.Lshr a b)) }
        ensures err { OnErr result (self.new ≡ self.old) }
    {
        self.build(Node::Binary(BinaryOp::Lshr, a, b))
    }

    /// A term shifted to the right by another, filled with its sign.
    pub fn ashr(&mut self, a: usize, b: usize) -> Result<usize, NoMemory>
        requires { Fits self.old.inputs (widths_of self.old.nodes) (Node.Binary BinaryOp.Ashr a b) }
        ensures ok { IfOk result (BuildsNode self.old self.new (Node.Binary BinaryOp.Ashr a b)) }
        ensures err { OnErr result (self.new ≡ self.old) }
    {
        self.build(Node::Binary(BinaryOp::Ashr, a, b))
    }

    /// Whether a term is below another, without sign.
    pub fn ult(&mut self, a: usize, b: usize) -> Result<usize, NoMemory>
        requires { Fits self.old.inputs (widths_of self.old.nodes)
            (Node.Compare Comparison.Ult a b) }
        ensures ok { IfOk result (BuildsNode self.old self.new (Node.Compare Comparison.Ult a b)) }
        ensures err { OnErr result (self.new ≡ self.old) }
    {
        self.build(Node::Compare(Comparison::Ult, a, b))
    }

    /// Whether a term is below another, as signed numbers.
    pub fn slt(&mut self, a: usize, b: usize) -> Result<usize, NoMemory>
        requires { Fits self.old.inputs (widths_of self.old.nodes)
            (Node.Compare Comparison.Slt a b) }
        ensures ok { IfOk result (BuildsNode self.old self.new (Node.Compare Comparison.Slt a b)) }
        ensures err { OnErr result (self.new ≡ self.old) }
    {
        self.build(Node::Compare(Comparison::Slt, a, b))
    }

    /// Whether two terms are equal.
    pub fn eq(&mut self, a: usize, b: usize) -> Result<usize, NoMemory>
        requires { Fits self.old.inputs (widths_of self.old.nodes)
            (Node.Compare Comparison.Eq a b) }
        ensures ok { IfOk result (BuildsNode self.old self.new (Node.Compare Comparison.Eq a b)) }
        ensures err { OnErr result (self.new ≡ self.old) }
    {
        self.build(Node::Compare(Comparison::Eq, a, b))
    }

    /// The first of two terms where the condition is 1, and else the second.
    pub fn ite(&mut self, c: usize, a: usize, b: usize) -> Result<usize, NoMemory>
        requires { Fits self.old.inputs (widths_of self.old.nodes) (Node.Ite c a b) }
        ensures ok { IfOk result (BuildsNode self.old self.new (Node.Ite c a b)) }
        ensures err { OnErr result (self.new ≡ self.old) }
    {
        self.build(Node::Ite {
            condition: c,
            yes: a,
            no: b,
        })
    }

    /// The bits of a term from `high` down to `low`.
    pub fn extract(&mut self, high: u32, low: u32, a: usize) -> Result<usize, NoMemory>
        requires { Fits self.old.inputs (widths_of self.old.nodes) (Node.Extract high low a) }
        ensures ok { IfOk result (BuildsNode self.old self.new (Node.Extract high low a)) }
        ensures err { OnErr result (self.new ≡ self.old) }
    {
        self.build(Node::Extract {
            high,
            low,
            operand: a,
        })
    }

    /// A term with `by` further bits, which are copies of its sign or zeros.
    pub fn extend(&mut self, by: u32, signed: bool, a: usize) -> Result<usize, NoMemory>
        requires { Fits self.old.inputs (widths_of self.old.nodes) (Node.Extend by signed a) }
        ensures ok { IfOk result (BuildsNode self.old self.new (Node.Extend by signed a)) }
        ensures err { OnErr result (self.new ≡ self.old) }
    {
        self.build(Node::Extend {
            by,
            signed,
            operand: a,
        })
    }

    /// The bits of one term above those of another.
    pub fn concat(&mut self, high: usize, low: usize) -> Result<usize, NoMemory>
        requires { Fits self.old.inputs (widths_of self.old.nodes) (Node.Concat high low) }
        ensures ok { IfOk result (BuildsNode self.old self.new (Node.Concat high low)) }
        ensures err { OnErr result (self.new ≡ self.old) }
    {
        self.build(Node::Concat { high, low })
    }
}
