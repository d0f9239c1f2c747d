//! Two terms without a bit in common, joined: the one above the other. A term widened by its sign that is shifted to the left, which
//! keeps its signs on top.

use crate::of_term_simplify::narrow::New::{Above, Is, Number, Signs, Zeros};
use crate::of_term_simplify::narrow::Row;
use bv_dag::BinaryOp::{And, Or, Shl, Xor};
use bv_dag::Node::Binary;

pub(crate) const JOINTS: &[Row] = &[
    // A half word of two bytes.
    (
        &[8],
        &[Binary(Shl, 3, 9), Binary(Or, 2, 13)],
        &[
            Zeros(16, 1),
            Number(8, 0),
            Above(1, 11),
            Zeros(16, 12),
            Zeros(8, 0),
            Above(1, 0),
            Zeros(16, 15),
        ],
        16,
    ),
    // Two bytes with one between them.
    (
        &[16],
        &[Binary(Shl, 3, 9), Binary(Xor, 13, 2)],
        &[
            Zeros(8, 1),
            Number(16, 0),
            Above(1, 11),
            Zeros(8, 12),
            Zeros(16, 0),
            Zeros(8, 0),
            Above(1, 15),
            Zeros(8, 16),
        ],
        17,
    ),
    // They have a bit in common.
    (
        &[7],
        &[Binary(Shl, 3, 9), Binary(Or, 2, 13)],
        &[
            Zeros(17, 1),
            Number(7, 0),
            Above(1, 11),
            Zeros(17, 12),
            Zeros(7, 0),
            Is(Binary(Or, 14, 12)),
            Zeros(17, 15),
        ],
        16,
    ),
    // No bit is in both.
    (
        &[8],
        &[Binary(Shl, 3, 9), Binary(And, 2, 13)],
        &[
            Zeros(16, 1),
            Number(8, 0),
            Above(1, 11),
            Zeros(16, 12),
            Number(32, 0),
        ],
        14,
    ),
    // A byte with its sign, eight places up.
    (
        &[8],
        &[Binary(Shl, 5, 9)],
        &[Signs(16, 1), Number(8, 0), Above(1, 11), Signs(16, 12)],
        13,
    ),
];
