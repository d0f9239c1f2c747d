//! What terms of an input byte are simplified to.

use crate::of_term_simplify::calls::Call;
use crate::of_term_simplify::steps::Step;
use crate::of_term_simplify::steps::Step::{Gives, Make, Stands};
use bv_dag::{BinaryOp, Comparison, Node};

pub(crate) const X: Call = Call::Node(Node::Input(0));

const OTHER: Call = Call::Node(Node::Input(1));

const ZERO: Call = Call::Node(Node::Num { width: 8, value: 0 });

const ONE: Call = Call::Node(Node::Num { width: 8, value: 1 });

const LETTER: Call = Call::Node(Node::Num {
    width: 8,
    value: 65,
});

/// The first of two bytes, and 0, in the places 0 and 1.
pub(crate) const SIMPLIFIED: &[Step] = &[
    Gives(X, 0),
    Gives(ZERO, 1),
    Gives(ZERO, 1),
    Gives(Call::Node(Node::Not(0)), 2),
    Gives(Call::Node(Node::Concat { high: 1, low: 0 }), 3),
    Gives(Call::Node(Node::Binary(BinaryOp::Add, 1, 0)), 0),
    Gives(Call::Node(Node::Binary(BinaryOp::Mul, 0, 1)), 1),
    Gives(Call::Node(Node::Not(2)), 0),
    // The upper half of the byte with 0 above it.
    Gives(
        Call::Node(Node::Extract {
            high: 15,
            low: 8,
            operand: 3,
        }),
        1,
    ),
    Gives(LETTER, 4),
    Gives(Call::Node(Node::Compare(Comparison::Eq, 0, 4)), 5),
    Gives(ONE, 6),
    Make(Call::Node(Node::Ite {
        condition: 5,
        yes: 6,
        no: 1,
    })),
];

// The term at this place, with 24 zeros above it.
pub(crate) const WIDENED_0: Node = Node::Extend {
    by: 24,
    signed: false,
    operand: 0,
};

const WIDENED_1: Node = Node::Extend {
    by: 24,
    signed: false,
    operand: 1,
};

const WIDENED_4: Node = Node::Extend {
    by: 24,
    signed: false,
    operand: 4,
};

const ALL: Call = Call::Node(Node::Num {
    width: 32,
    value: 255,
});

const EVEN: Call = Call::Node(Node::Num {
    width: 32,
    value: 254,
});

/// A mask is left out where it changes nothing. One that changes bits of a byte alone keeps bits of the byte, above zeros.
pub(crate) const MASKED: &[Step] = &[
    Gives(X, 0),
    Gives(Call::Node(WIDENED_0), 1),
    Gives(ALL, 2),
    Gives(EVEN, 3),
    Gives(Call::Node(Node::Binary(BinaryOp::And, 1, 2)), 1),
    Gives(Call::Node(Node::Binary(BinaryOp::And, 2, 1)), 1),
    Gives(Call::Node(Node::Binary(BinaryOp::And, 1, 3)), 9),
    Stands(
        4,
        Node::Num {
            width: 8,
            value: 254,
        },
    ),
    Stands(6, Node::Num { width: 1, value: 0 }),
    Stands(
        7,
        Node::Extract {
            high: 7,
            low: 1,
            operand: 0,
        },
    ),
    Stands(8, Node::Concat { high: 7, low: 6 }),
    Stands(
        9,
        Node::Extend {
            by: 24,
            signed: false,
            operand: 8,
        },
    ),
];

/// A remainder of widened bytes is that of the bytes. A widened byte isn't negative.
pub(crate) const REMAINDERS: &[Step] = &[
    Gives(X, 0),
    Gives(OTHER, 1),
    Gives(Call::Node(WIDENED_0), 2),
    Gives(Call::Node(WIDENED_1), 3),
    Gives(Call::Remu(2, 3), 5),
    Stands(4, Node::Binary(BinaryOp::Urem, 0, 1)),
    Stands(5, WIDENED_4),
    // From 6 on: the sign of both, which is 0, and the negative of each byte in 9 bits, which is not chosen.
    Gives(Call::Rem(2, 3), 14),
    Stands(6, Node::Num { width: 1, value: 0 }),
    Stands(
        7,
        Node::Extend {
            by: 1,
            signed: false,
            operand: 0,
        },
    ),
    Stands(8, Node::Neg(7)),
    Stands(13, Node::Binary(BinaryOp::Urem, 0, 1)),
    Stands(
        14,
        Node::Extend {
            by: 24,
            signed: false,
            operand: 13,
        },
    ),
];

/// A remainder by what is always greater is the dividend; one by as much isn't.
pub(crate) const DIVIDENDS: &[Step] = &[
    Gives(X, 0),
    Gives(
        Call::Node(Node::Num {
            width: 8,
            value: 10,
        }),
        1,
    ),
    Gives(Call::Node(Node::Binary(BinaryOp::Urem, 0, 1)), 2),
    Gives(Call::Node(Node::Binary(BinaryOp::Urem, 2, 1)), 2),
    Gives(Call::Node(Node::Num { width: 8, value: 9 }), 3),
    // Both have 4 bits.
    Gives(Call::Node(Node::Binary(BinaryOp::Urem, 2, 3)), 7),
    Stands(
        4,
        Node::Extract {
            high: 3,
            low: 0,
            operand: 2,
        },
    ),
    Stands(5, Node::Num { width: 4, value: 9 }),
    Stands(6, Node::Binary(BinaryOp::Urem, 4, 5)),
    Stands(
        7,
        Node::Extend {
            by: 4,
            signed: false,
            operand: 6,
        },
    ),
    // By a term, which is 246 at least.
    Gives(Call::Node(Node::Not(2)), 8),
    Gives(Call::Node(Node::Binary(BinaryOp::Urem, 2, 8)), 2),
];

/// What a term's least and greatest value tell is known however deep it is: a remainder by 10 is below 10, five choices on.
/// Each choice is made of four bits.
pub(crate) const DEEP: &[Step] = &[
    Gives(X, 0),
    Gives(
        Call::Node(Node::Num {
            width: 8,
            value: 10,
        }),
        1,
    ),
    Gives(Call::Node(Node::Binary(BinaryOp::Urem, 0, 1)), 2),
    Gives(OTHER, 3),
    Gives(Call::Node(Node::Compare(Comparison::Ult, 3, 0)), 4),
    Gives(ONE, 5),
    Gives(
        Call::Node(Node::Ite {
            condition: 4,
            yes: 2,
            no: 5,
        }),
        9,
    ),
    Gives(
        Call::Node(Node::Ite {
            condition: 4,
            yes: 9,
            no: 5,
        }),
        11,
    ),
    Gives(
        Call::Node(Node::Ite {
            condition: 4,
            yes: 11,
            no: 5,
        }),
        13,
    ),
    Gives(
        Call::Node(Node::Ite {
            condition: 4,
            yes: 13,
            no: 5,
        }),
        15,
    ),
    Gives(
        Call::Node(Node::Ite {
            condition: 4,
            yes: 15,
            no: 5,
        }),
        18,
    ),
    // The number 1 of four bits stood too far back to be found.
    Stands(16, Node::Num { width: 4, value: 1 }),
    Gives(Call::Node(Node::Compare(Comparison::Ult, 18, 1)), 19),
    Stands(19, Node::Num { width: 1, value: 1 }),
];
