//! Bits of the complement of a byte, and of a choice between a byte and a number.

use crate::of_term_simplify::bytes::{WIDENED_0, X};
use crate::of_term_simplify::calls::Call;
use crate::of_term_simplify::steps::Step;
use crate::of_term_simplify::steps::Step::{Gives, Stands};
use bv_dag::Node;
use bv_dag::Node::{Extend, Extract, Input, Ite, Not, Num};

/// The byte's lowest bit chooses between the byte and 0x1041.
const CHOSEN: Node = Ite {
    condition: 7,
    yes: 1,
    no: 8,
};

const HIGHER: Node = Extract {
    high: 11,
    low: 4,
    operand: 2,
};

pub(crate) const LIFTED: &[Step] = &[
    Gives(X, 0),
    Gives(Call::Node(WIDENED_0), 1),
    // The byte's own bits, and four of them below four bits of the zeros above.
    Gives(Call::Node(Not(1)), 2),
    Gives(
        Call::Node(Extract {
            high: 7,
            low: 0,
            operand: 2,
        }),
        3,
    ),
    Stands(3, Not(0)),
    Gives(Call::Node(HIGHER), 6),
    Stands(
        5,
        Extend {
            by: 4,
            signed: false,
            operand: 4,
        },
    ),
    Stands(6, Not(5)),
    // A choice in 13 bits, widened. Its lower 8 bits are the byte, or 0x41.
    Gives(
        Call::Node(Extract {
            high: 0,
            low: 0,
            operand: 0,
        }),
        7,
    ),
    Gives(
        Call::Node(Num {
            width: 32,
            value: 0x1041,
        }),
        8,
    ),
    Gives(Call::Node(CHOSEN), 12),
    Gives(
        Call::Node(Extract {
            high: 7,
            low: 0,
            operand: 12,
        }),
        14,
    ),
    Stands(
        13,
        Num {
            width: 8,
            value: 0x41,
        },
    ),
    Stands(
        14,
        Ite {
            condition: 7,
            yes: 0,
            no: 13,
        },
    ),
    // Its upper 5 are 0, or 0x10.
    Gives(
        Call::Node(Extract {
            high: 12,
            low: 8,
            operand: 12,
        }),
        17,
    ),
    Stands(15, Num { width: 5, value: 0 }),
    Stands(
        16,
        Num {
            width: 5,
            value: 16,
        },
    ),
    Stands(
        17,
        Ite {
            condition: 7,
            yes: 15,
            no: 16,
        },
    ),
    // The top one is 0, or 1: the complement of the condition.
    Gives(
        Call::Node(Extract {
            high: 12,
            low: 12,
            operand: 12,
        }),
        20,
    ),
    Stands(20, Not(7)),
    // A choice between two bytes stays.
    Gives(Call::Node(Input(1)), 21),
    Gives(
        Call::Node(Ite {
            condition: 7,
            yes: 0,
            no: 21,
        }),
        22,
    ),
    Gives(
        Call::Node(Extract {
            high: 3,
            low: 0,
            operand: 22,
        }),
        23,
    ),
    Stands(
        23,
        Extract {
            high: 3,
            low: 0,
            operand: 22,
        },
    ),
];
