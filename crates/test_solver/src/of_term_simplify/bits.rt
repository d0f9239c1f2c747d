//! Bits of an input byte: moved, and taken of wider terms.

use crate::of_term_simplify::bytes::{WIDENED_0, X};
use crate::of_term_simplify::calls::Call;
use crate::of_term_simplify::steps::Step;
use crate::of_term_simplify::steps::Step::{Gives, Stands};
use bv_dag::{BinaryOp, Node};

const THREE: Call = Call::Node(Node::Num { width: 8, value: 3 });

/// A shift by 3 moves five bits of a byte, and one by 3 the other way brings them back.
pub(crate) const MOVED: &[Step] = &[
    Gives(X, 0),
    Gives(THREE, 1),
    Gives(Call::Node(Node::Binary(BinaryOp::Shl, 0, 1)), 4),
    Stands(
        2,
        Node::Extract {
            high: 4,
            low: 0,
            operand: 0,
        },
    ),
    Stands(3, Node::Num { width: 3, value: 0 }),
    Stands(4, Node::Concat { high: 2, low: 3 }),
    Gives(Call::Node(Node::Binary(BinaryOp::Lshr, 0, 1)), 6),
    Stands(
        5,
        Node::Extract {
            high: 7,
            low: 3,
            operand: 0,
        },
    ),
    Stands(
        6,
        Node::Extend {
            by: 3,
            signed: false,
            operand: 5,
        },
    ),
    Gives(Call::Node(Node::Binary(BinaryOp::Ashr, 0, 1)), 7),
    Stands(
        7,
        Node::Extend {
            by: 3,
            signed: true,
            operand: 5,
        },
    ),
    Gives(Call::Node(Node::Binary(BinaryOp::Lshr, 4, 1)), 8),
    Stands(
        8,
        Node::Extend {
            by: 3,
            signed: false,
            operand: 2,
        },
    ),
];

const SIGNED_0: Node = Node::Extend {
    by: 24,
    signed: true,
    operand: 0,
};

/// Bits of a widened byte are the byte's bits, widened. Zeros in the middle of two joined terms go to the top.
pub(crate) const PARTS: &[Step] = &[
    Gives(X, 0),
    Gives(Call::Node(WIDENED_0), 1),
    Gives(
        Call::Node(Node::Extract {
            high: 11,
            low: 4,
            operand: 1,
        }),
        3,
    ),
    Stands(
        2,
        Node::Extract {
            high: 7,
            low: 4,
            operand: 0,
        },
    ),
    Stands(
        3,
        Node::Extend {
            by: 4,
            signed: false,
            operand: 2,
        },
    ),
    Gives(
        Call::Node(Node::Extract {
            high: 15,
            low: 0,
            operand: 1,
        }),
        4,
    ),
    Stands(
        4,
        Node::Extend {
            by: 8,
            signed: false,
            operand: 0,
        },
    ),
    Gives(Call::Node(SIGNED_0), 5),
    Gives(
        Call::Node(Node::Extract {
            high: 31,
            low: 8,
            operand: 5,
        }),
        7,
    ),
    Stands(
        6,
        Node::Extract {
            high: 7,
            low: 7,
            operand: 0,
        },
    ),
    Stands(
        7,
        Node::Extend {
            by: 23,
            signed: true,
            operand: 6,
        },
    ),
    Gives(
        Call::Node(Node::Extract {
            high: 31,
            low: 31,
            operand: 5,
        }),
        6,
    ),
    Gives(Call::Node(Node::Concat { high: 1, low: 0 }), 9),
    Stands(8, Node::Concat { high: 0, low: 0 }),
    Stands(
        9,
        Node::Extend {
            by: 24,
            signed: false,
            operand: 8,
        },
    ),
];
