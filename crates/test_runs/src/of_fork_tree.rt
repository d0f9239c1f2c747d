//! A worker of rungs, which climbs to a top, and the trees that it makes.

ghost use Rattle.std.specs.Prelude.{◌≡◌, ℕ, ◌+◌, ◌-◌, ◌^◌, ◌<◌, ◌≤◌, ◌==◌, ◌++◌, ◌∷◌, [], IfOk, IsTrue, None, OnOk, Some, if◌then◌else◌, true, false, length, nat_le, replicate};
ghost use Rattle.fork_spec.specs.Decisions.{Side};
ghost use Rattle.tree_core.specs.declared.cause.Cause.TheVariants.{Conflicts};
ghost use Rattle.tree_core.specs.declared.choice.Choice.TheVariants.{No, Yes};
ghost use Rattle.tree_core.specs.declared.order.Order.TheVariants.{Deepest};
ghost use Rattle.tree_core.specs.Cores.{held_count};
ghost use Rattle.fork_spec.specs.Walks.{is_one_cut_at_most};
ghost use Rattle.fork_tree.specs.Written.{side_of_kid};
ghost use Rattle.fork_tree.specs.Calls.{IsOpening};
ghost use Rattle.fork_tree.specs.Contents.{cut_in, place_in};
ghost use Rattle.fork_tree.specs.Nodes.{StateIs};
ghost use Rattle.fork_tree.specs.Works.{IsPart};

use fork_spec::Placed;
use fork_tree::{Claim, Content, Parts, Tree, Work, drain};
use std::alloc::{AllocError as NoMemory, Global};
use std::process::Abort;
use std::sync::{Arc, Wait};
use std::test::Fail;
use tree_core::{Cause, Choice, Kid, Order, Status};
use work_gate::Gate;

/// The assignments of just so many numbers, or of so many or more. Runs take the branch once for each number.
#[derive(Clone, Copy, Debug, PartialEq, Eq)]
struct Rung {
    from: u32,
    just: bool,
}

impl Placed for Rung {
    ghost place = { λ r. record { choices = replicate r.from Yes ++ (if r.just then No ∷ [] else []); covers = λ input. if r.just then length input == r.from else nat_le r.from (length input); cut = None } };

    fn cut(&self) -> Option<Cause> {
        None
    }
}

/// A rung that is done.
#[derive(Clone, Copy, Debug, PartialEq, Eq)]
struct End {
    rung: Rung,
    cut: Option<Cause>,
}

impl Placed for End {
    ghost place = { λ e. record { choices = replicate e.rung.from Yes ++ (if e.rung.just then No ∷ [] else []); covers = λ input. if e.rung.just then length input == e.rung.from else nat_le e.rung.from (length input); cut = e.cut } };

    fn cut(&self) -> Option<Cause> {
        self.cut
    }
}

/// Parts rungs below the top, and cuts the one that reaches it. The first side of the second rung is cut at once.
#[derive(Clone, Copy)]
struct Climber {
    top: u32,
    // From so many on no rung is parted.
    nodes: u32,
}

impl Work for Climber {
    type State = Rung;

    type Leaf = End;

    ghost rules = { λ w. record {
      left = λ r. if r.just then 0 else w.top + 1 - r.from;
      targets = 2;
      nodes = w.nodes;
      order = Deepest;
      decides = λ input. replicate (length input) (Side true) ++ Side false ∷ [];
      IsWell = λ r. r.from ≤ w.top;
      IsRight = λ sides nodes e. e.cut ≡ Some Conflicts → sides ≡ No ∷ Yes ∷ [];
    } };

    fn work(
        &self,
        _rt: &impl Wait,
        alloc: Global,
        _gate: &impl Gate,
        _by: u32,
        state: &Rung,
    ) -> Result<Parts<Rung, End>, NoMemory> {
        let rung = *state;
        if rung.just {
            return Ok(Parts::Finished(End { rung, cut: None }));
        }
        if rung.from == self.top {
            let cut = Some(Cause::Steps);
            return Ok(Parts::CutSteps(End { rung, cut }));
        }
        let first = first_side(alloc, rung.from)?;
        let second = second_side(alloc, rung.from)?;
        let mut kids = Vec::with_capacity(alloc, 2)?;
        kids.push_reserved(first);
        kids.push_reserved(second);
        Ok(Parts::Kids(kids, rung))
    }

    fn cut_nodes(&self, _alloc: Global, run: Rung, _nodes: u32) -> Result<End, NoMemory> {
        let cut = Some(Cause::Nodes);
        Ok(End { rung: run, cut })
    }
}

// The side of those that end on this rung. On the second rung it is a leaf at once.
fn first_side(alloc: Global, from: u32) -> Result<Kid<Content<Rung, End>>, NoMemory>
    ensures choice { IfOk result (λ kid. kid.choice ≡ No) }
    ensures place { IfOk result (λ kid.
        record (place_in ⟦<Rung as Placed>⟧.place ⟦<End as Placed>⟧.place kid.content) { cut = None }
        ≡ ⟦<Rung as Placed>⟧.place (record { from = from; just = true })) }
    ensures cut { IfOk result (λ kid. IsTrue
        (is_one_cut_at_most (side_of_kid
        (cut_in ⟦<Rung as Placed>⟧.place ⟦<End as Placed>⟧.place) kid).cut None)) }
    ensures part { IfOk result (λ kid. (top nodes limit : ℕ) → from ≤ top → 0 < limit
        → IsPart (⟦<Climber as Work>⟧.rules (record { top = top; nodes = nodes }))
        ⟦<End as Placed>⟧.place limit
        (No ∷ Yes ∷ []) kid kid.content) }
{
    let rung = Rung { from, just: true };
    if from == 1 {
        let cut = Some(Cause::Conflicts);
        return Ok(Kid {
            choice: Choice::No,
            content: Content::Shut(End { rung, cut }),
            is_leaf: true,
        });
    }
    Ok(Kid {
        choice: Choice::No,
        content: Content::Open(Arc::new(alloc, rung)?),
        is_leaf: false,
    })
}

// The side of those that climb on.
fn second_side(alloc: Global, from: u32) -> Result<Kid<Content<Rung, End>>, NoMemory>
    requires { from + 1 < 2 ^ 32 }
    ensures choice { IfOk result (λ kid. kid.choice ≡ Yes) }
    ensures open { IfOk result (λ kid. kid.is_leaf ≡ false) }
    ensures state { IfOk result (λ kid. StateIs (Some kid.content)
        (record { from = from + 1; just = false })) }
{
    let rung = Rung {
        from: from + 1,
        just: false,
    };
    Ok(Kid {
        choice: Choice::Yes,
        content: Content::Open(Arc::new(alloc, rung)?),
        is_leaf: false,
    })
}

const CLIMBER: Climber = Climber { top: 3, nodes: 100 };

const GROUND: Rung = Rung {
    from: 0,
    just: false,
};

// Whether this node is a leaf that was cut so.
fn is_cut(tree: &Tree<Climber>, node: usize, cause: Option<Cause>) -> bool {
    node < tree.len() && tree.status(node) == Status::Leaf && tree.leaf(node).cut == cause
}

// Three splits make six nodes. They, two finishes and a cut end six claims. The first side of the second rung is node 3, the
// rung at the top node 6.
fn has_three_rungs(tree: &Tree<Climber>) -> bool {
    tree.len() == 7
        && tree.nodes().len() == 7
        && tree.events().len() == 12
        && tree.worker().top == 3
        && is_cut(tree, 1, None)
        && is_cut(tree, 3, Some(Cause::Conflicts))
        && is_cut(tree, 6, Some(Cause::Steps))
}

// Whether each node is parted or a leaf.
pub(crate) fn is_quiet<W: Work>(tree: &Tree<W>) -> bool {
    for node in 0..tree.len() {
        if !matches!(tree.status(node), Status::Parted | Status::Leaf) {
            return false;
        }
    }
    true
}

// Whether the tree is quiet once it's drained, and not before.
fn comes_to_rest(rt: &impl Wait, alloc: Global, tree: &mut Tree<Climber>) -> Result<bool, NoMemory>
    requires opening { IsOpening (record { from = 0; just = false }) tree.old.story }
{
    let early = is_quiet(tree);
    drain(rt, alloc, tree, 0)?;
    Ok(!early && is_quiet(tree))
}

#[test]
fn drains(rt: HostRuntime) -> Result<(), Fail> {
    let mut tree = Tree::new(rt.alloc(), CLIMBER, GROUND, 100, Order::Deepest)?;
    let rests = comes_to_rest(&rt, rt.alloc(), &mut tree)?;
    assert!(rt; rests && has_three_rungs(&tree));
    Ok(())
}

// The split of the ground makes three nodes, as many as there may be: the rung above it is cut.
#[test]
fn a_full_tree_cuts_what_would_part(rt: HostRuntime) -> Result<(), Fail> {
    let climber = Climber { top: 3, nodes: 3 };
    let mut tree = Tree::new(rt.alloc(), climber, GROUND, 3, Order::Deepest)?;
    assert!(rt; !tree.full());
    let rests = comes_to_rest(&rt, rt.alloc(), &mut tree)?;
    assert!(rt; rests && tree.full() && tree.len() == 3 && tree.events().len() == 6);
    assert!(rt; is_cut(&tree, 1, None) && is_cut(&tree, 2, Some(Cause::Nodes)));
    Ok(())
}

// A fork has a side for each of 64 values, and one for the rest.
#[test]
fn a_fork_into_65_sides_has_room(rt: HostRuntime) -> Result<(), Fail> {
    let mut tree = Tree::new(rt.alloc(), CLIMBER, GROUND, 100, Order::Deepest)?;
    tree.reserve(65)?;
    Ok(())
}

// The first worker claims the ground, and gives it back. Meanwhile the second finds nothing.
fn claim_and_release(rt: &impl Abort, tree: &mut Tree<Climber>) -> Result<(), NoMemory>
    requires opening { IsOpening (record { from = 0; just = false }) tree.old.story }
    ensures none_held { OnOk result (held_count tree.new.story ≡ 0) }
{
    tree.reserve(0)?;
    let Claim::Claimed(node, state) = tree.claim(0)? else {
        panic!(rt; "no node is free");
    };
    assert!(rt; *state == GROUND);
    tree.reserve(0)?;
    assert!(rt; matches!(tree.claim(1)?, Claim::Nothing));
    assert!(rt; !is_quiet(tree));
    tree.release(0, node);
    assert!(rt; tree.status(node) == Status::Free);
    Ok(())
}

// Where memory was refused, the next try goes on from what was entered.
fn drain_twice(rt: &impl Wait, alloc: Global, tree: &mut Tree<Climber>) -> Result<(), NoMemory>
    requires none_held { held_count tree.old.story ≡ 0 }
{
    if drain(rt, alloc, tree, 1).is_err() {
        drain(rt, alloc, tree, 1)?;
    }
    Ok(())
}

// Whether the first worker finds no node that is free or held.
fn finds_quiet(tree: &mut Tree<Climber>) -> Result<bool, NoMemory> {
    tree.reserve(0)?;
    Ok(matches!(tree.claim(0)?, Claim::Quiet))
}

// Whether the tree is whole once the second worker has drained what the first gave back.
fn are_turns_taken(
    rt: &(impl Abort + Wait),
    alloc: Global,
    tree: &mut Tree<Climber>,
) -> Result<bool, NoMemory>
    requires opening { IsOpening (record { from = 0; just = false }) tree.old.story }
{
    claim_and_release(rt, tree)?;
    drain_twice(rt, alloc, tree)?;
    Ok(tree.len() == 7 && finds_quiet(tree)?)
}

#[test]
fn two_workers_take_turns(rt: HostRuntime) -> Result<(), Fail> {
    let mut tree = Tree::new(rt.alloc(), CLIMBER, GROUND, 100, Order::Deepest)?;
    assert!(rt; are_turns_taken(&rt, rt.alloc(), &mut tree)?);
    Ok(())
}

/// Climbs from the ground, and finds no memory for the rungs above it.
#[derive(Clone, Copy)]
struct Beginner {
    climber: Climber,
}

impl Work for Beginner {
    type State = Rung;

    type Leaf = End;

    ghost rules = { λ beginner. ⟦<Climber as Work>⟧.rules beginner.climber };

    fn work(
        &self,
        rt: &impl Wait,
        alloc: Global,
        gate: &impl Gate,
        by: u32,
        state: &Rung,
    ) -> Result<Parts<Rung, End>, NoMemory> {
        if *state != GROUND {
            return Err(NoMemory);
        }
        self.climber.work(rt, alloc, gate, by, state)
    }

    fn cut_nodes(&self, alloc: Global, run: Rung, nodes: u32) -> Result<End, NoMemory> {
        self.climber.cut_nodes(alloc, run, nodes)
    }
}

// The node that a worker claims next, if one is free.
fn claimed(tree: &mut Tree<Beginner>, by: u32) -> Result<Option<usize>, NoMemory> {
    tree.reserve(0)?;
    match tree.claim(by)? {
        Claim::Claimed(node, _) => Ok(Some(node)),
        Claim::Nothing | Claim::Quiet => Ok(None),
    }
}

// The first worker frees both sides of the ground, and gives the first of them back, which then comes first again.
fn goes_on(rt: &impl Wait, alloc: Global, tree: &mut Tree<Beginner>) -> Result<bool, NoMemory>
    requires opening { IsOpening (record { from = 0; just = false }) tree.old.story }
{
    let failed = drain(rt, alloc, tree, 0).is_err();
    Ok(
        failed
            && claimed(tree, 1)? == Some(1)
            && claimed(tree, 0)? == Some(2)
            && claimed(tree, 1)? == None,
    )
}

#[test]
fn what_was_given_back_comes_first(rt: HostRuntime) -> Result<(), Fail> {
    let climber = CLIMBER;
    let mut tree = Tree::new(
        rt.alloc(),
        Beginner { climber },
        GROUND,
        100,
        Order::Deepest,
    )?;
    assert!(rt; goes_on(&rt, rt.alloc(), &mut tree)?);
    Ok(())
}
