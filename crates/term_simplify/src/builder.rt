//! Terms, each simplified before it is put behind the others.

ghost use Rattle.std.specs.Prelude.{◌≡◌, [], ◌↔◌, ◌<◌, ℕ, IsTrue, IfOk, IfSome, OnOk, OnErr, length, take, slice_get};
ghost use Rattle.bv_dag.specs.Graphs.{Graph, val, width_of};
ghost use Rattle.bv_dag.specs.Nodes.{Fits, node_value, node_width, widths_of};
ghost use Rattle.term_trees.specs.Trees.{tree_of, node_tree, IsTerm};
ghost use Rattle.term_simplify.specs.Plans.{Follows, Makes, PlanFits};
ghost use Rattle.term_simplify.specs.Lifting.{unlifted};
ghost use Rattle.term_simplify.specs.Plain.{plain};
ghost use Rattle.term_simplify.specs.Steps.{Stands};

use crate::above::above_of;
use crate::binaries::binary;
use crate::choices::choice;
use crate::comparisons::comparison;
use crate::equalities::told_of;
use crate::extensions::{extension, further, joined};
use crate::known::Known;
use crate::moves::move_of;
use crate::narrowing::narrowing_of;
use crate::parts::part;
use crate::plan::{Plan, complement, negative};
use crate::recipe::{Recipe, alone};
use crate::values::value_of;
use bv_dag::{BinaryOp, Comparison, Node};
use std::alloc::{AllocError as NoMemory, Global};
use std::marker::Model;
use term_table::Terms;

/// How many of the last terms are looked at before one is pushed.
const LOOKED_AT: usize = 8;

/// Whether two nodes are one.
fn is_same(left: &Node, right: &Node) -> bool
    ensures { IsTrue result ↔ (left.now ≡ right.now) }
{
    *left == *right
}

/// The place of an equal node among the last few.
fn recent(terms: &Known, node: &Node) -> Option<usize>
    ensures { IfSome result (λ id. Makes terms.now (Plan.Term id)
        (node_tree (tree_of terms.now) node.now)) }
{
    let len = terms.len();
    for id in len.saturating_sub(LOOKED_AT)..len {
        if is_same(&terms.node(id), node) {
            return Some(id);
        }
    }
    None
}

/// What the node is simplified to at its own width, bits not taken through complements and choices.
fn plan(terms: &Known, node: Node) -> Recipe
    requires { Fits terms.now.inputs (widths_of terms.now.nodes) node }
    ensures makes { Follows terms.now result (unlifted (tree_of terms.now) node) }
    ensures term { IsTerm terms.now.inputs (node_tree (tree_of terms.now) node) }
{
    match node {
        Node::Num { width, value } => alone(Plan::Push(Node::Num { width, value })),
        Node::Input(index) => alone(Plan::Push(Node::Input(index))),
        Node::Not(a) => alone(complement(terms, a)),
        Node::Neg(a) => alone(negative(terms, a)),
        Node::Binary(op, a, b) => alone(binary(terms, op, a, b)),
        Node::Compare(op, a, b) => alone(comparison(terms, op, a, b)),
        Node::Ite { condition, yes, no } => alone(choice(terms, condition, yes, no)),
        Node::Extract { high, low, operand } => part(terms, high, low, operand),
        Node::Extend {
            by,
            signed,
            operand,
        } => alone(extension(terms, by, signed, operand)),
        Node::Concat { high, low } => joined(terms, high, low),
    }
}

/// A table of terms over input bytes, to which simplified terms are added.
#[derive(Drop)]
pub struct Builder {
    known: Known,
}

impl Model for Builder {
    ghost use Rattle.bv_dag.specs.Graphs.{Graph};

    ghost Value = { Graph };

    ghost view = { λ b. b.known };
}

impl Builder {
    ghost use Rattle.bv_dag.specs.Graphs.{IsDag};
    ghost use Rattle.term_simplify.specs.Builds.{BuildsAs, BuildsNode};
    ghost use Rattle.term_simplify.specs.Moves.{unmoved, unshifted, unvalued};
    ghost use Rattle.term_simplify.specs.Plans.{plan_tree, recipe_tree, HasRoom, RecipeFits};
    ghost use Rattle.term_simplify.specs.Plain.{further};
    ghost use Rattle.term_simplify.specs.Told.{unsummed, untold};
    ghost use Rattle.term_trees.specs.Growth.{Continues};

    /// No terms yet, over so many input bytes.
    pub fn new(alloc: Global, inputs: usize) -> Builder
        ensures { result ≡ record { inputs = inputs; nodes = [] } }
    {
        Builder {
            known: Known::new(alloc, inputs),
        }
    }

    /// The terms so far.
    pub fn terms(&self) -> &Terms
        ensures { result.now ≡ self.now }
    {
        self.known.terms()
    }

    /// The terms, and what is known of them.
    pub(crate) fn known(&self) -> &Known
        ensures { result.now ≡ self.now }
    {
        &self.known
    }

    /// How many terms there are.
    pub fn len(&self) -> usize
        ensures { result ≡ length self.now.nodes }
    {
        self.known.len()
    }

    /// An equal one; a change in one changes nothing in the other.
    pub fn share(&self) -> Result<Builder, NoMemory>
        ensures { IfOk result (λ other. other ≡ self.now) }
    {
        Ok(Builder {
            known: self.known.share()?,
        })
    }

    /// Keeps the first `len` terms, or all where there are no more.
    pub fn truncate(&mut self, len: usize)
        ensures { self.new ≡ record { inputs = self.old.inputs; nodes = take len self.old.nodes } }
    {
        self.known.truncate(len);
    }

    /// The place of the node, which is put behind the others where it isn't one of the last.
    fn put(&mut self, node: Node) -> Result<usize, NoMemory>
        requires { Fits self.old.inputs (widths_of self.old.nodes) node }
        ensures there { IfOk result (λ id. id < length self.new.nodes) }
        ensures tree { IfOk result (λ id. tree_of self.new id ≡ node_tree (tree_of self.old) node) }
        ensures ok { OnOk result (Continues self.old self.new) }
        ensures err { OnErr result (self.new ≡ self.old) }
    {
        match recent(&self.known, &node) {
            Some(id) => Ok(id),
            None => self.known.push(node),
        }
    }

    /// What a plan makes.
    pub(crate) fn stand(&mut self, plan: Plan) -> Result<usize, NoMemory>
        requires { PlanFits self.old plan }
        ensures there { IfOk result (λ id. id < length self.new.nodes) }
        ensures tree { IfOk result (λ id. tree_of self.new id ≡ plan_tree self.old plan) }
        ensures ok { OnOk result (Continues self.old self.new) }
        ensures err { OnErr result (self.new ≡ self.old) }
    {
        match plan {
            Plan::Term(id) => Ok(id),
            Plan::Push(node) => self.put(node),
        }
    }

    /// A term with so many further bits, where there are any.
    pub(crate) fn further(&mut self, by: u32, signed: bool, id: usize) -> Result<usize, NoMemory>
        requires there { id < length self.old.nodes }
        requires room { HasRoom by (width_of self.old id) }
        ensures there { IfOk result (λ more. more < length self.new.nodes) }
        ensures tree { IfOk result (λ more. tree_of self.new more
            ≡ further by signed (tree_of self.old id)) }
        ensures continues { Continues self.old self.new }
    {
        let plan = further(&self.known, by, signed, id);
        self.stand(plan)
    }

    /// What a recipe makes, or only some of the terms on the way.
    pub(crate) fn followed(&mut self, recipe: Recipe) -> Result<usize, NoMemory>
        requires { RecipeFits self.old recipe }
        ensures there { IfOk result (λ id. id < length self.new.nodes) }
        ensures tree { IfOk result (λ id. tree_of self.new id ≡ recipe_tree self.old recipe) }
        ensures continues { Continues self.old self.new }
    {
        let core = self.stand(recipe.core)?;
        let signed = self.further(recipe.above.signs, true, core)?;
        self.further(recipe.above.zeros, false, signed)
    }

    /// What a recipe makes.
    fn carry_out(&mut self, recipe: Recipe) -> Result<usize, NoMemory>
        requires { RecipeFits self.old recipe }
        ensures there { IfOk result (λ id. id < length self.new.nodes) }
        ensures tree { IfOk result (λ id. tree_of self.new id ≡ recipe_tree self.old recipe) }
        ensures ok { OnOk result (Continues self.old self.new) }
        ensures err { OnErr result (self.new ≡ self.old) }
    {
        let len = self.len();
        let answer = self.followed(recipe);
        self.settled(len, answer)
    }

    /// The term that a node is at its own width.
    pub(crate) fn plain(&mut self, node: Node) -> Result<usize, NoMemory>
        requires { Fits self.old.inputs (widths_of self.old.nodes) node }
        ensures ok { IfOk result (BuildsAs (plain (tree_of self.old) node) self.old self.new node) }
        ensures err { OnErr result (self.new ≡ self.old) }
        ensures term { IsTerm self.old.inputs (node_tree (tree_of self.old) node) }
    {
        match node {
            Node::Extract { high, low, operand } => self.bits(high, low, operand),
            _ => {
                let recipe = plan(&self.known, node);
                self.carry_out(recipe)
            }
        }
    }

    /// Such a term on the way.
    pub(crate) fn plain_step(&mut self, node: Node) -> Result<usize, NoMemory>
        requires { Fits self.old.inputs (widths_of self.old.nodes) node }
        ensures continues { Continues self.old self.new }
        ensures ok { IfOk result (λ id. Stands self.new id (plain (tree_of self.old) node)
            (node_width (widths_of self.old.nodes) node)
            (λ input. node_value input (λ k. val self.old k input) node)) }
        ensures term { IsTerm self.old.inputs (node_tree (tree_of self.old) node) }
    {
        self.plain(node)
    }

    /// The term that a node is simplified to which moves no bits, is no test that another term or its operands' ends tell, and is no
    /// sum that is made as another one.
    pub(crate) fn unsummed(&mut self, node: Node) -> Result<usize, NoMemory>
        requires { Fits self.old.inputs (widths_of self.old.nodes) node }
        ensures ok { IfOk result
            (BuildsAs (unsummed (tree_of self.old) node) self.old self.new node) }
        ensures err { OnErr result (self.new ≡ self.old) }
        ensures term { IsTerm self.old.inputs (node_tree (tree_of self.old) node) }
    {
        match narrowing_of(&self.known, node) {
            Some(narrow) => self.narrow(node, narrow),
            None => self.own(node),
        }
    }

    /// The term that a node is simplified to which moves no bits and is no test that another term tells.
    pub(crate) fn untold(&mut self, node: Node) -> Result<usize, NoMemory>
        requires { Fits self.old.inputs (widths_of self.old.nodes) node }
        ensures ok { IfOk result
            (BuildsAs (untold (tree_of self.old) node) self.old self.new node) }
        ensures err { OnErr result (self.new ≡ self.old) }
        ensures term { IsTerm self.old.inputs (node_tree (tree_of self.old) node) }
    {
        match node {
            Node::Binary(op, a, b) => self.summed(op, a, b),
            Node::Compare(op, a, b) => self.decided(op, a, b),
            _ => self.unsummed(node),
        }
    }

    /// The term that a node is simplified to which moves no bits, and is no test of a number below a sum.
    fn unmoved(&mut self, node: Node) -> Result<usize, NoMemory>
        requires { Fits self.old.inputs (widths_of self.old.nodes) node }
        ensures ok { IfOk result
            (BuildsAs (unmoved (tree_of self.old) node) self.old self.new node) }
        ensures err { OnErr result (self.new ≡ self.old) }
        ensures term { IsTerm self.old.inputs (node_tree (tree_of self.old) node) }
    {
        match told_of(&self.known, node) {
            Some(told) => self.tell(told),
            None => self.untold(node),
        }
    }

    /// The term that a node is simplified to whose value isn't told, and which moves no bits.
    fn unshifted(&mut self, node: Node) -> Result<usize, NoMemory>
        requires { Fits self.old.inputs (widths_of self.old.nodes) node }
        ensures ok { IfOk result
            (BuildsAs (unshifted (tree_of self.old) node) self.old self.new node) }
        ensures err { OnErr result (self.new ≡ self.old) }
        ensures term { IsTerm self.old.inputs (node_tree (tree_of self.old) node) }
    {
        match above_of(&self.known, node) {
            Some(interval) => self.outside(interval),
            None => self.unmoved(node),
        }
    }

    /// The term that a node is simplified to whose value isn't told.
    fn unvalued(&mut self, node: Node) -> Result<usize, NoMemory>
        requires { Fits self.old.inputs (widths_of self.old.nodes) node }
        ensures ok { IfOk result
            (BuildsAs (unvalued (tree_of self.old) node) self.old self.new node) }
        ensures err { OnErr result (self.new ≡ self.old) }
        ensures term { IsTerm self.old.inputs (node_tree (tree_of self.old) node) }
    {
        match move_of(&self.known, node) {
            Some(bits) => self.move_bits(bits),
            None => self.unshifted(node),
        }
    }

    /// The term that the node is simplified to, which is worth what the node is worth. The node's own tree is well formed.
    pub fn build(&mut self, node: Node) -> Result<usize, NoMemory>
        requires { Fits self.old.inputs (widths_of self.old.nodes) node }
        ensures ok { IfOk result (BuildsNode self.old self.new node) }
        ensures err { OnErr result (self.new ≡ self.old) }
        ensures term { IsTerm self.old.inputs (node_tree (tree_of self.old) node) }
    {
        match value_of(&self.known, node) {
            Some(plan) => self.stand(plan),
            None => self.unvalued(node),
        }
    }
}
