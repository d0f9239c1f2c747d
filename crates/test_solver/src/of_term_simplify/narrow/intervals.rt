//! Tests of a sum with a number, which its term tells by where it lies, and of a byte moved up.

use crate::of_term_simplify::narrow::New::{Above, Is, Number, Signs, Zeros};
use crate::of_term_simplify::narrow::Row;
use bv_dag::BinaryOp::{Add, And, Or, Shl, Sub};
use bv_dag::Comparison::{Eq, Ult};
use bv_dag::Node::{Binary, Compare, Not};

pub(crate) const INTERVALS: &[Row] = &[
    // A byte less 48 is below 10 where the byte is not below 48, and below 58.
    (
        &[48, 10],
        &[Binary(Sub, 2, 9), Compare(Ult, 14, 10)],
        &[
            Zeros(1, 0),
            Number(9, 48),
            Is(Binary(Sub, 11, 12)),
            Signs(23, 13),
            Number(8, 48),
            Is(Compare(Ult, 0, 15)),
            Is(Not(16)),
            Number(9, 58),
            Number(8, 58),
            Is(Compare(Ult, 0, 19)),
            Is(Binary(And, 17, 20)),
        ],
        21,
    ),
    // A word and 5 is below 10 where the word is from -5 up, or below 5; and below 5 where it is from -5 up.
    (
        &[5, 10],
        &[Binary(Add, 6, 9), Compare(Ult, 11, 10)],
        &[
            Is(Binary(Add, 6, 9)),
            Number(32, 0xFFFF_FFFB),
            Is(Compare(Ult, 6, 12)),
            Is(Not(13)),
            Is(Compare(Ult, 6, 9)),
            Is(Binary(Or, 14, 15)),
        ],
        16,
    ),
    (
        &[5],
        &[Binary(Add, 6, 9), Compare(Ult, 10, 9)],
        &[
            Is(Binary(Add, 6, 9)),
            Number(32, 0xFFFF_FFFB),
            Is(Compare(Ult, 6, 11)),
            Is(Not(12)),
        ],
        13,
    ),
];

pub(crate) const HALVES: &[Row] = &[
    // A byte above zeros is 0x4100 where the byte is 0x41, and never 0x4101.
    (
        &[8, 0x4100],
        &[Binary(Shl, 3, 9), Compare(Eq, 14, 10)],
        &[
            Zeros(16, 1),
            Number(8, 0),
            Above(1, 12),
            Zeros(16, 13),
            Number(8, 0x41),
            Is(Compare(Eq, 1, 15)),
        ],
        16,
    ),
    (
        &[8, 0x4101],
        &[Binary(Shl, 3, 9), Compare(Eq, 14, 10)],
        &[
            Zeros(16, 1),
            Number(8, 0),
            Above(1, 12),
            Zeros(16, 13),
            Number(8, 1),
            Number(1, 0),
        ],
        16,
    ),
];
