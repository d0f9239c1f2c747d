//! A card that is drawn once, of three, and the trees that several workers make of it.

ghost use Rattle.std.specs.Prelude.{◌≡◌, ◌≤◌, ◌==◌, ◌∷◌, [], IfOk, None, Some, false, if◌then◌else◌, length, min, true};
ghost use Rattle.fork_spec.specs.Decisions.{Number};
ghost use Rattle.tree_core.specs.declared.choice.Choice.TheVariants.{Value};
ghost use Rattle.tree_core.specs.declared.order.Order.TheVariants.{Deepest};
ghost use Rattle.fork_tree.specs.Nodes.{StateIs};

use crate::of_fork_tree::is_quiet;
use fork_spec::Placed;
use fork_tree::{Content, Parts, Tree, Work};
use std::alloc::{AllocError as NoMemory, Global};
use std::sync::{Arc, Wait};
use std::test::Fail;
use std::thread::Threads;
use tree_core::{Cause, Choice, Deed, Kid, Order, Status};
use work_gate::{DropGate, Gate, MeetGate, Next, OpenGate, Point};
use work_run::{Lent, explore};

/// All assignments, or those of one card: those with so many numbers, where 2 is for two and more.
#[derive(Clone, Copy, Debug, PartialEq, Eq)]
struct Draw {
    drawn: bool,
    card: u32,
}

impl Placed for Draw {
    ghost place = { λ d. record {
      choices = if d.drawn then Value d.card ∷ [] else [];
      covers = λ input. if d.drawn then min 2 (length input) == d.card else true;
      cut = None;
    } };

    fn cut(&self) -> Option<Cause> {
        None
    }
}

/// Draws the card.
#[derive(Clone, Copy)]
struct Dealer;

impl Work for Dealer {
    type State = Draw;

    type Leaf = Draw;

    ghost rules = { λ w. record {
      left = λ d. if d.drawn then 0 else 1;
      targets = 3;
      nodes = 100;
      order = Deepest;
      decides = λ input. Number (min 2 (length input)) ∷ [];
      IsWell = λ d. Unit {0};
      IsRight = λ sides nodes d. Unit {0};
    } };

    fn work(
        &self,
        _rt: &impl Wait,
        alloc: Global,
        gate: &impl Gate,
        by: u32,
        state: &Draw,
    ) -> Result<Parts<Draw, Draw>, NoMemory> {
        let draw = *state;
        if draw.drawn {
            let _ = gate.reached(by, Point::Working);
            return Ok(Parts::Finished(draw));
        }
        let none = side(alloc, 0)?;
        let one = side(alloc, 1)?;
        let more = side(alloc, 2)?;
        let mut kids = Vec::with_capacity(alloc, 3)?;
        kids.push_reserved(none);
        kids.push_reserved(one);
        kids.push_reserved(more);
        let _ = gate.reached(by, Point::Working);
        Ok(Parts::Kids(kids, draw))
    }

    // There are four nodes at most, and never a hundred.
    fn cut_nodes(&self, _alloc: Global, _run: Draw, _nodes: u32) -> Result<Draw, NoMemory> {
        Err(NoMemory)
    }
}

// The side of one card.
fn side(alloc: Global, card: u32) -> Result<Kid<Content<Draw, Draw>>, NoMemory>
    ensures choice { IfOk result (λ kid. kid.choice ≡ Value card) }
    ensures open { IfOk result (λ kid. kid.is_leaf ≡ false) }
    ensures state { IfOk result (λ kid. StateIs (Some kid.content)
        (record { drawn = true; card = card })) }
{
    let draw = Draw { drawn: true, card };
    Ok(Kid {
        choice: Choice::Value(card),
        content: Content::Open(Arc::new(alloc, draw)?),
        is_leaf: false,
    })
}

/// Lets each worker leave before it enters what came of a node.
#[derive(Clone, Copy)]
struct Leaving;

impl Gate for Leaving {
    ghost use Rattle.std.specs.Prelude.{◌≡◌};
    ghost use Rattle.work_gate.specs.declared.point.Point.TheVariants.{BeforeGive};

    ghost may_leave = { λ _ _ point. point ≡ BeforeGive };

    fn reached(&self, _worker: u32, point: Point) -> Next {
        if matches!(point, Point::BeforeGive) {
            Next::Leave
        } else {
            Next::Go
        }
    }
}

const WHOLE: Draw = Draw {
    drawn: false,
    card: 0,
};

fn releases(tree: &Tree<Lent<'_, Dealer>>) -> usize {
    let events = tree.events();
    events
        .iter()
        .filter(|event| matches!(event.deed, Deed::Release))
        .count()
}

// Whether this node is the leaf of this card.
fn is_leaf_of(tree: &Tree<Lent<'_, Dealer>>, node: usize, card: u32) -> bool {
    node < tree.len()
        && tree.status(node) == Status::Leaf
        && *tree.leaf(node) == Draw { drawn: true, card }
}

// The leaves are those that one worker makes: one for each card.
fn has_each_leaf(tree: &Tree<Lent<'_, Dealer>>) -> bool {
    is_quiet(tree)
        && tree.len() == 4
        && is_leaf_of(tree, 1, 0)
        && is_leaf_of(tree, 2, 1)
        && is_leaf_of(tree, 3, 2)
}

#[test]
fn four_workers_make_each_leaf(rt: HostRuntime) -> Result<(), Fail> {
    let tree = explore(
        &rt,
        rt.alloc(),
        &Dealer,
        WHOLE,
        4,
        100,
        Order::Deepest,
        &OpenGate,
    )?;
    // A claim and its end for each node.
    let events = tree.events().len();
    assert!(rt; has_each_leaf(&tree) && events == 8 && releases(&tree) == 0);
    Ok(())
}

// Two workers work one card each at the same time: one alone would be held up to the limit.
#[test]
fn two_workers_work_at_once(rt: HostRuntime) -> Result<(), Fail> {
    let gate = MeetGate::new();
    let tree = explore(
        &rt,
        rt.alloc(),
        &Dealer,
        WHOLE,
        2,
        100,
        Order::Deepest,
        &gate,
    )?;
    assert!(rt; has_each_leaf(&tree) && gate.have_met() && !gate.was_limit_reached());
    Ok(())
}

// Whether so many workers, each of which leaves once, make each leaf and release what they left.
fn is_left_worked<R: Threads + Wait + Sync>(
    rt: &R,
    alloc: Global,
    workers: u32,
) -> Result<bool, NoMemory>
    requires { 1 ≤ workers }
{
    let tree = explore(
        rt,
        alloc,
        &Dealer,
        WHOLE,
        workers,
        100,
        Order::Deepest,
        &Leaving,
    )?;
    Ok(has_each_leaf(&tree) && releases(&tree) == workers as usize)
}

#[test]
fn what_workers_leave_is_worked(rt: HostRuntime) -> Result<(), Fail> {
    assert!(rt; is_left_worked(&rt, rt.alloc(), 1)?);
    assert!(rt; is_left_worked(&rt, rt.alloc(), 4)?);
    Ok(())
}

#[test]
fn a_worker_may_leave_behind_its_claim(rt: HostRuntime) -> Result<(), Fail> {
    let gate = DropGate {
        worker: 0,
        point: Point::AfterClaim,
    };
    let tree = explore(
        &rt,
        rt.alloc(),
        &Dealer,
        WHOLE,
        1,
        100,
        Order::Deepest,
        &gate,
    )?;
    assert!(rt; has_each_leaf(&tree) && releases(&tree) == 1);
    Ok(())
}

#[test]
fn a_worker_may_leave_behind_a_give(rt: HostRuntime) -> Result<(), Fail> {
    let gate = DropGate {
        worker: 0,
        point: Point::AfterGive,
    };
    let tree = explore(
        &rt,
        rt.alloc(),
        &Dealer,
        WHOLE,
        1,
        100,
        Order::Deepest,
        &gate,
    )?;
    // The card that it claimed in the same turn is released.
    assert!(rt; has_each_leaf(&tree) && releases(&tree) == 1);
    Ok(())
}
