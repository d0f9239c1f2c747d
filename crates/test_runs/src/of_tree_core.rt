//! The protocol by worked rows: claims that are held, released and ended, and a split.

ghost use Rattle.std.specs.Prelude.{◌≡◌, ◌<◌, ◌≤◌, ◌&&◌, Some, IfOk, count_by, length, nat_le, false, nat_lt, true};
ghost use Rattle.tree_core.specs.Covers.{Parts};
ghost use Rattle.tree_core.specs.Stories.{content};

use std::alloc::{AllocError, Global};
use std::process::Abort;
use std::sync::Arc;
use std::test::Fail;
use tree_core::{Choice, Core, Cover, Deed, Event, Kid, Refusal, Status};

/// Covers the assignments of `low` numbers or more, and fewer than `high`.
#[derive(Clone, Copy, Debug, PartialEq, Eq)]
struct Band {
    low: u32,
    high: u32,
}

impl Cover for Band {
    ghost covers = { λ band input. nat_le band.low (length input) && nat_lt (length input) band.high };

    ghost by_nodes = { λ band. false };

    fn is_by_nodes(&self) -> bool {
        false
    }
}

const ALL: Band = Band { low: 0, high: 9 };

fn claim<R: Cover>(
    rt: &impl Abort,
    core: &mut Core<R>,
    by: u32,
    node: usize,
) -> Result<(), Refusal> {
    assert!(rt; node < core.len());
    core.apply(Event {
        by,
        node,
        deed: Deed::Claim,
    })
}

fn release<R: Cover>(
    rt: &impl Abort,
    core: &mut Core<R>,
    by: u32,
    node: usize,
) -> Result<(), Refusal> {
    assert!(rt; node < core.len());
    core.apply(Event {
        by,
        node,
        deed: Deed::Release,
    })
}

// What a node holds that isn't parted.
fn held(rt: &impl Abort, core: &Core<Band>, node: usize) -> Band
    ensures there { node < length core.now.story.nodes }
    ensures value { content core.now.story node ≡ Some result }
{
    assert!(rt; node < core.len());
    let Some(band) = core.content(node) else {
        panic!(rt; "the node is parted");
    };
    *band
}

fn finish(rt: &impl Abort, core: &mut Core<Band>, by: u32, node: usize) -> Result<(), Refusal> {
    let leaf = held(rt, core, node);
    core.apply(Event {
        by,
        node,
        deed: Deed::Finish(leaf),
    })
}

fn cut(rt: &impl Abort, core: &mut Core<Band>, by: u32, node: usize) -> Result<(), Refusal> {
    let leaf = held(rt, core, node);
    core.apply(Event {
        by,
        node,
        deed: Deed::Cut(leaf),
    })
}

// A band in two kids, the second of which is to be born as a leaf.
fn halves(alloc: Global, band: Band, at: u32) -> Result<Vec<Kid<Band>>, AllocError>
    requires { (band.low ≤ at) × (at ≤ band.high) }
    ensures { IfOk result (λ kids. Parts ⟦<Band as Cover>⟧.covers (Some band) kids.items) }
{
    let low = Band { high: at, ..band };
    let high = Band { low: at, ..band };
    let mut kids = Vec::with_capacity(alloc, 2)?;
    kids.push_reserved(Kid {
        choice: Choice::No,
        content: low,
        is_leaf: false,
    });
    kids.push_reserved(Kid {
        choice: Choice::Yes,
        content: high,
        is_leaf: true,
    });
    Ok(kids)
}

// Parts the node at 4.
fn split(
    rt: &impl Abort,
    alloc: Global,
    core: &mut Core<Band>,
    by: u32,
    node: usize,
) -> Result<(), Refusal> {
    let band = held(rt, core, node);
    assert!(rt; band.low <= 4 && 4 <= band.high);
    let kids = halves(alloc, band, 4)?;
    core.apply(Event {
        by,
        node,
        deed: Deed::Split(kids),
    })
}

// What workers share is `Send` and `Sync`.
fn takes_shared<T: Send + Sync>(_value: &T) {}

/// What a worker does with a node.
#[derive(Clone, Copy)]
enum Does {
    Claim,
    Release,
    Finish,
    Cut,
    Split,
}

fn enter(
    rt: &impl Abort,
    alloc: Global,
    core: &mut Core<Band>,
    (by, node, does): (u32, usize, Does),
) -> Result<(), Refusal> {
    match does {
        Does::Claim => claim(rt, core, by, node),
        Does::Release => release(rt, core, by, node),
        Does::Finish => finish(rt, core, by, node),
        Does::Cut => cut(rt, core, by, node),
        Does::Split => split(rt, alloc, core, by, node),
    }
}

/// A worker, a node, what the one does with the other, and the status by which it's refused, if it is.
type Row = (u32, usize, Does, Option<Status>);

// Enters all rows, and says whether each is answered so.
fn are_answered(rt: &impl Abort, alloc: Global, core: &mut Core<Band>, rows: &[Row]) -> bool {
    let mut are = true;
    for &(by, node, does, refuses) in rows {
        let answer = enter(rt, alloc, core, (by, node, does));
        are = are
            && match refuses {
                Some(status) => answer == Err(Refusal::NotNow { node, status }),
                None => answer == Ok(()),
            };
    }
    are
}

// Enters all rows, after which there are so many nodes and events.
fn check_rows(
    rt: &impl Abort,
    alloc: Global,
    core: &mut Core<Band>,
    rows: &[Row],
    counts: (usize, usize),
) {
    assert!(rt; are_answered(rt, alloc, core, rows));
    assert_eq!(rt; (core.len(), core.events().len()), counts);
}

const CLAIMED: [Row; 2] = [
    (1, 0, Does::Claim, None),
    (2, 0, Does::Claim, Some(Status::Held(1))),
];

const HANDED_ON: [Row; 3] = [
    (1, 0, Does::Release, None),
    (2, 0, Does::Claim, None),
    (1, 0, Does::Finish, Some(Status::Held(2))),
];

const ENDED: [Row; 2] = [
    (2, 0, Does::Finish, None),
    (1, 0, Does::Claim, Some(Status::Leaf)),
];

#[test]
fn a_claim_is_one_workers(rt: HostRuntime) -> Result<(), Fail> {
    let mut core = Core::new(rt.alloc(), ALL, false, 100)?;
    takes_shared(&core);
    core.reserve(2)?;
    check_rows(&rt, rt.alloc(), &mut core, &CLAIMED, (1, 1));
    check_rows(&rt, rt.alloc(), &mut core, &HANDED_ON, (1, 3));
    check_rows(&rt, rt.alloc(), &mut core, &ENDED, (1, 4));
    Ok(())
}

const TOO_EARLY: [Row; 1] = [(7, 0, Does::Split, Some(Status::Free))];

const PARTED: [Row; 4] = [
    (7, 0, Does::Claim, None),
    (7, 0, Does::Split, None),
    (7, 0, Does::Claim, Some(Status::Parted)),
    (7, 2, Does::Claim, Some(Status::Leaf)),
];

const CUT_AFTER: [Row; 2] = [(8, 1, Does::Claim, None), (8, 1, Does::Cut, None)];

type Seen = (Status, Option<Band>);

fn seen(rt: &impl Abort, core: &Core<Band>, node: usize) -> Seen {
    assert!(rt; node < core.len());
    (core.status(node), core.content(node).copied())
}

const LOW: Band = Band { low: 0, high: 4 };

const HIGH: Band = Band { low: 4, high: 9 };

const NODES: [Seen; 3] = [
    (Status::Parted, None),
    (Status::Leaf, Some(LOW)),
    (Status::Leaf, Some(HIGH)),
];

// What is seen of each node.
fn check_seen(rt: &impl Abort, core: &Core<Band>) {
    for (node, &want) in NODES.iter().enumerate() {
        assert!(rt; seen(rt, core, node) == want, "node {node}");
    }
}

#[test]
fn kids_stand_for_what_was_split(rt: HostRuntime) -> Result<(), Fail> {
    let mut core = Core::new(rt.alloc(), ALL, false, 100)?;
    check_rows(&rt, rt.alloc(), &mut core, &TOO_EARLY, (1, 0));
    check_rows(&rt, rt.alloc(), &mut core, &PARTED, (3, 2));
    check_rows(&rt, rt.alloc(), &mut core, &CUT_AFTER, (3, 4));
    check_seen(&rt, &core);
    Ok(())
}

/// It covers every assignment. Some are leaves that were cut for want of nodes.
#[derive(Drop)]
struct Piece {
    by_nodes: bool,
}

impl Cover for Piece {
    ghost covers = { λ piece input. true };

    ghost by_nodes = { λ piece. piece.by_nodes };

    fn is_by_nodes(&self) -> bool {
        self.by_nodes
    }
}

// Makes a node a leaf that was cut for want of nodes.
fn cut_piece(rt: &impl Abort, core: &mut Core<Piece>, node: usize) -> Result<(), Refusal> {
    assert!(rt; node < core.len());
    let Some(_) = core.content(node) else {
        panic!(rt; "the node is parted");
    };
    let deed = Deed::Cut(Piece { by_nodes: true });
    core.apply(Event { by: 0, node, deed })
}

// The kids of a fork with one side.
fn only_piece(alloc: Global) -> Result<Vec<Kid<Piece>>, AllocError>
    ensures { IfOk result (λ kids. count_by (λ _. true) kids.items ≡ 1) }
{
    let mut kids = Vec::with_capacity(alloc, 1)?;
    kids.push_reserved(Kid {
        choice: Choice::Yes,
        content: Piece { by_nodes: false },
        is_leaf: false,
    });
    Ok(kids)
}

// Parts a node into one kid.
fn part_piece(
    rt: &impl Abort,
    alloc: Global,
    core: &mut Core<Piece>,
    node: usize,
) -> Result<(), Refusal> {
    assert!(rt; node < core.len());
    let Some(_) = core.content(node) else {
        panic!(rt; "the node is parted");
    };
    let deed = Deed::Split(only_piece(alloc)?);
    core.apply(Event { by: 0, node, deed })
}

// Where there may be two nodes, the one is parted, and the other cut.
#[test]
fn a_full_tree_is_cut_and_not_parted(rt: HostRuntime) -> Result<(), Fail> {
    let alloc = rt.alloc();
    let mut core = Core::new(alloc, Piece { by_nodes: false }, false, 2)?;
    assert!(rt; claim(&rt, &mut core, 0, 0) == Ok(()));
    assert!(rt; cut_piece(&rt, &mut core, 0) == Err(Refusal::Early { nodes: 1 }));
    assert!(rt; part_piece(&rt, alloc, &mut core, 0) == Ok(()));
    assert!(rt; claim(&rt, &mut core, 0, 1) == Ok(()));
    assert!(rt; part_piece(&rt, alloc, &mut core, 1) == Err(Refusal::Full { nodes: 2 }));
    assert!(rt; cut_piece(&rt, &mut core, 1) == Ok(()));
    Ok(())
}

/// A share of a state. It covers every assignment.
#[derive(Drop)]
struct Share(Arc<u32, Global>);

impl Cover for Share {
    ghost covers = { λ share input. true };

    ghost by_nodes = { λ share. false };

    fn is_by_nodes(&self) -> bool {
        false
    }
}

fn state(alloc: Global) -> Result<Arc<u32, Global>, AllocError> {
    Ok(Arc::new(alloc, 0)?)
}

// The kids of a fork with one side.
fn only_side(alloc: Global, state: &Arc<u32, Global>) -> Result<Vec<Kid<Share>>, AllocError>
    ensures { IfOk result (λ kids. count_by (λ _. true) kids.items ≡ 1) }
{
    let content = Share(Arc::try_clone(state)?);
    let mut kids = Vec::with_capacity(alloc, 1)?;
    kids.push_reserved(Kid {
        choice: Choice::Rest,
        content,
        is_leaf: false,
    });
    Ok(kids)
}

// Parts a node into one kid, which gets a share of the state.
fn pass_on(
    rt: &impl Abort,
    alloc: Global,
    core: &mut Core<Share>,
    node: usize,
    state: &Arc<u32, Global>,
) -> Result<(), Refusal> {
    assert!(rt; node < core.len());
    let Some(_) = core.content(node) else {
        panic!(rt; "the node is parted");
    };
    let kids = only_side(alloc, state)?;
    core.apply(Event {
        by: 0,
        node,
        deed: Deed::Split(kids),
    })
}

// Makes a node a leaf, which gets a share of the state.
fn end(
    rt: &impl Abort,
    core: &mut Core<Share>,
    node: usize,
    state: &Arc<u32, Global>,
) -> Result<(), Refusal> {
    assert!(rt; node < core.len());
    let Some(_) = core.content(node) else {
        panic!(rt; "the node is parted");
    };
    let leaf = Share(Arc::try_clone(state)?);
    core.apply(Event {
        by: 0,
        node,
        deed: Deed::Finish(leaf),
    })
}

// The root holds a share of the first state. Once it's parted its share is gone, and its kid holds one of the second.
fn part_root(
    rt: &impl Abort,
    alloc: Global,
    core: &mut Core<Share>,
    first: &Arc<u32, Global>,
    second: &Arc<u32, Global>,
) {
    assert!(rt; claim(rt, core, 0, 0) == Ok(()));
    assert!(rt; Arc::strong_count(first) == 2);
    assert!(rt; pass_on(rt, alloc, core, 0, second) == Ok(()));
    assert!(rt; Arc::strong_count(first) == 1 && Arc::strong_count(second) == 2);
}

// The kid holds its share until it's a leaf: then the share of its birth is gone, and that of the leaf is kept.
fn end_kid(
    rt: &impl Abort,
    core: &mut Core<Share>,
    second: &Arc<u32, Global>,
    last: &Arc<u32, Global>,
) {
    assert!(rt; claim(rt, core, 0, 1) == Ok(()));
    assert!(rt; release(rt, core, 0, 1) == Ok(()));
    assert!(rt; claim(rt, core, 0, 1) == Ok(()));
    assert!(rt; Arc::strong_count(second) == 2);
    assert!(rt; end(rt, core, 1, last) == Ok(()));
    assert!(rt; Arc::strong_count(second) == 1 && Arc::strong_count(last) == 2);
}

fn share_in_turn(
    rt: &impl Abort,
    alloc: Global,
    first: &Arc<u32, Global>,
    second: &Arc<u32, Global>,
    last: &Arc<u32, Global>,
) -> Result<(), Fail> {
    let root = Share(Arc::try_clone(first)?);
    let mut core = Core::new(alloc, root, false, 100)?;
    part_root(rt, alloc, &mut core, first, second);
    end_kid(rt, &mut core, second, last);
    Ok(())
}

#[test]
fn what_a_node_held_is_let_go(rt: HostRuntime) -> Result<(), Fail> {
    let alloc = rt.alloc();
    let first = state(alloc)?;
    let second = state(alloc)?;
    let last = state(alloc)?;
    share_in_turn(&rt, alloc, &first, &second, &last)
}
