//! The text of events, byte for byte.

ghost use Rattle.std.specs.Prelude.{◌≡◌, length};
ghost use Rattle.fork_tree.specs.Written.{nodes_after};

use fork_spec::Placed;
use report_text::{events_name, write_events};
use std::alloc::{AllocError as NoMemory, Global};
use std::test::Fail;
use tree_core::{Cause, Choice, Deed, Event, Node, Noted, Origin};

/// A program with one path.
static ONE_LEAF: &str = "claim 0 0
finish 0 0
";

/// Each deed, and each sort of side.
static EACH: &str = "claim 0 0
split 0 0 1 N Y!conflicts
claim 3 1
release 3 1
claim 11 1
split 11 1 3 =00010020 =fffffff8 R!targets
claim 2 3
cut 2 3 steps
claim 0 4
finish 0 4
";

/// A root that is cut where there may be one node.
static WITHOUT_NODES: &str = "claim 0 0
cut 0 0 nodes
";

/// A content that says no more than why it was cut.
#[derive(Clone, Copy)]
struct Mark(Option<Cause>);

impl Placed for Mark {
    ghost use Rattle.std.specs.Prelude.{[], false};

    ghost place = { λ m. record { choices = []; covers = λ input. false; cut = m.0 } };

    fn cut(&self) -> Option<Cause> {
        self.0
    }
}

/// What one worker does to a root that is a leaf.
const TWO_EVENTS: [Noted<Mark>; 2] = [
    Event {
        by: 0,
        node: 0,
        deed: Deed::Claim,
    },
    Event {
        by: 0,
        node: 0,
        deed: Deed::Finish(Mark(None)),
    },
];

/// What one worker does to a root that would be parted.
const CUT_EVENTS: [Noted<Mark>; 2] = [
    Event {
        by: 0,
        node: 0,
        deed: Deed::Claim,
    },
    Event {
        by: 0,
        node: 0,
        deed: Deed::Cut(Mark(Some(Cause::Nodes))),
    },
];

/// Each deed.
const TEN_EVENTS: [Noted<Mark>; 10] = [
    Event {
        by: 0,
        node: 0,
        deed: Deed::Claim,
    },
    Event {
        by: 0,
        node: 0,
        deed: Deed::Split(2),
    },
    Event {
        by: 3,
        node: 1,
        deed: Deed::Claim,
    },
    Event {
        by: 3,
        node: 1,
        deed: Deed::Release,
    },
    Event {
        by: 11,
        node: 1,
        deed: Deed::Claim,
    },
    Event {
        by: 11,
        node: 1,
        deed: Deed::Split(3),
    },
    Event {
        by: 2,
        node: 3,
        deed: Deed::Claim,
    },
    Event {
        by: 2,
        node: 3,
        deed: Deed::Cut(Mark(Some(Cause::Steps))),
    },
    Event {
        by: 0,
        node: 4,
        deed: Deed::Claim,
    },
    Event {
        by: 0,
        node: 4,
        deed: Deed::Finish(Mark(None)),
    },
];

/// A side of the fork at a node; a leaf at once where it is cut.
fn side(parent: usize, choice: Choice, cut: Option<Cause>) -> Node<Mark> {
    let origin = Some(Origin { parent, choice });
    if cut.is_some() {
        Node::new_leaf(origin, Mark(cut))
    } else {
        Node::new_free(origin, &Mark(cut))
    }
}

/// The root.
fn root() -> Node<Mark> {
    Node::new_free(None, &Mark(None))
}

/// Whether the events have this text.
fn are_written(
    alloc: Global,
    nodes: &[Node<Mark>],
    events: &[Noted<Mark>],
    want: &str,
) -> Result<bool, NoMemory>
    requires { nodes_after 1 events.now ≡ length nodes.now }
{
    let text = write_events(alloc, nodes, events)?;
    Ok(text.as_slice() == want.as_bytes())
}

#[test]
#[tactic(auto, unfolding(fork_tree::specs::Written::nodes_after))]
fn a_program_with_one_path_is_claimed_and_finished(rt: HostRuntime) -> Result<(), Fail> {
    assert!(rt; are_written(rt.alloc(), &[root()], &TWO_EVENTS, ONE_LEAF)?);
    Ok(())
}

#[test]
#[tactic(auto, unfolding(fork_tree::specs::Written::nodes_after))]
fn a_root_may_be_cut_for_want_of_nodes(rt: HostRuntime) -> Result<(), Fail> {
    assert!(rt; are_written(rt.alloc(), &[root()], &CUT_EVENTS, WITHOUT_NODES)?);
    Ok(())
}

#[test]
#[tactic(auto, unfolding(fork_tree::specs::Written::nodes_after))]
fn each_deed_has_its_line(rt: HostRuntime) -> Result<(), Fail> {
    let nodes = [
        root(),
        side(0, Choice::No, None),
        side(0, Choice::Yes, Some(Cause::Conflicts)),
        side(1, Choice::Value(0x0001_0020), None),
        side(1, Choice::Value(0xffff_fff8), None),
        side(1, Choice::Rest, Some(Cause::Targets)),
    ];
    assert!(rt; are_written(rt.alloc(), &nodes, &TEN_EVENTS, EACH)?);
    Ok(())
}

#[test]
fn the_events_have_their_name(rt: HostRuntime) -> Result<(), Fail> {
    assert_eq!(rt; events_name(rt.alloc(), "out")?.as_str(), "out/events.txt");
    Ok(())
}
