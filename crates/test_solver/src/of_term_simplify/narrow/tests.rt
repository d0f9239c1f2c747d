//! Comparisons, made of low bits without being widened, and choices.

use crate::of_term_simplify::narrow::New::{Is, Number, Signs, Zeros};
use crate::of_term_simplify::narrow::Row;
use bv_dag::BinaryOp::Add;
use bv_dag::Comparison;
use bv_dag::Comparison::{Slt, Ult};
use bv_dag::Node::{Binary, Compare, Extract, Ite, Not};

pub(crate) const TESTS: &[Row] = &[
    // Two bytes: none is negative, so the sign makes no difference.
    (&[], &[Compare(Ult, 2, 3)], &[Is(Compare(Ult, 0, 1))], 9),
    (&[], &[Compare(Slt, 2, 3)], &[Is(Compare(Ult, 0, 1))], 9),
    (
        &[],
        &[Compare(Comparison::Eq, 2, 3)],
        &[Is(Compare(Comparison::Eq, 0, 1))],
        9,
    ),
    // Two bytes with signs.
    (&[], &[Compare(Slt, 4, 5)], &[Is(Compare(Slt, 0, 1))], 9),
    (&[], &[Compare(Ult, 4, 5)], &[Is(Compare(Ult, 0, 1))], 9),
    // One without sign and one with.
    (
        &[],
        &[Compare(Slt, 2, 5)],
        &[Zeros(1, 0), Signs(1, 1), Is(Compare(Slt, 9, 10))],
        11,
    ),
    // Letters.
    (
        &[65],
        &[Compare(Ult, 2, 9)],
        &[Number(8, 65), Is(Compare(Ult, 0, 10))],
        11,
    ),
    (
        &[48],
        &[Compare(Slt, 9, 2)],
        &[Number(8, 48), Is(Compare(Ult, 10, 0))],
        11,
    ),
    // A byte is below 300, which has 9 bits.
    (&[300], &[Compare(Ult, 2, 9)], &[Number(1, 1)], 10),
    // -3, and a byte with its sign and without, which is not below it.
    (
        &[0xFFFF_FFFD],
        &[Compare(Slt, 4, 9)],
        &[Number(8, 0xFD), Is(Compare(Slt, 0, 10))],
        11,
    ),
    (&[0xFFFF_FFFD], &[Compare(Slt, 2, 9)], &[Number(1, 0)], 10),
];

pub(crate) const ALIKE: &[Row] = &[
    // A byte and 0, and a number beyond its range.
    (
        &[0],
        &[Compare(Comparison::Eq, 2, 9)],
        &[Number(8, 0), Is(Compare(Comparison::Eq, 0, 10))],
        11,
    ),
    (
        &[321],
        &[Compare(Comparison::Eq, 2, 9)],
        &[Number(1, 0)],
        10,
    ),
    // -3, and a byte with its sign and without.
    (
        &[0xFFFF_FFFD],
        &[Compare(Comparison::Eq, 4, 9)],
        &[Number(8, 0xFD), Is(Compare(Comparison::Eq, 0, 10))],
        11,
    ),
    (
        &[0xFFFF_FFFD],
        &[Compare(Comparison::Eq, 2, 9)],
        &[Number(1, 0)],
        10,
    ),
    // A bit, and both numbers that it may be.
    (
        &[0],
        &[Compare(Comparison::Eq, 8, 9)],
        &[Number(1, 0), Is(Not(7))],
        11,
    ),
    (&[1], &[Compare(Comparison::Eq, 8, 9)], &[Number(1, 1)], 7),
    // A complement: of a byte, of which the upper bits are ones, and so never 0.
    (
        &[0xFFFF_FFBE],
        &[Not(2), Compare(Comparison::Eq, 10, 9)],
        &[
            Is(Not(2)),
            Number(8, 65),
            Is(Compare(Comparison::Eq, 0, 11)),
        ],
        12,
    ),
    (
        &[0],
        &[Not(2), Compare(Comparison::Eq, 9, 10)],
        &[Is(Not(2)), Number(32, 0xFFFF_FFFF), Number(1, 0)],
        12,
    ),
    // A sum is 70 where the byte in it is 65; it is never 3, since the byte would be below 0.
    (
        &[5, 70],
        &[Binary(Add, 2, 9), Compare(Comparison::Eq, 14, 10)],
        &[
            Zeros(1, 0),
            Number(9, 5),
            Is(Binary(Add, 11, 12)),
            Zeros(23, 13),
            Number(8, 65),
            Is(Compare(Comparison::Eq, 0, 15)),
        ],
        16,
    ),
    (
        &[5, 3],
        &[Binary(Add, 2, 9), Compare(Comparison::Eq, 14, 10)],
        &[
            Zeros(1, 0),
            Number(9, 5),
            Is(Binary(Add, 11, 12)),
            Zeros(23, 13),
            Number(9, 0x1FE),
            Number(1, 0),
        ],
        16,
    ),
    // What is below 0 by its sign: a byte with its sign, one without, and a term of 32 bits.
    (
        &[0],
        &[Compare(Slt, 4, 9)],
        &[Is(Extract {
            high: 7,
            low: 7,
            operand: 0,
        })],
        10,
    ),
    (&[0], &[Compare(Slt, 2, 9)], &[Number(1, 0)], 10),
    (
        &[0],
        &[Compare(Slt, 6, 9)],
        &[Is(Extract {
            high: 31,
            low: 31,
            operand: 6,
        })],
        10,
    ),
];

pub(crate) const CHOICES: &[Row] = &[
    // A byte, or a number.
    (
        &[48],
        &[Ite {
            condition: 7,
            yes: 2,
            no: 9,
        }],
        &[
            Number(8, 48),
            Is(Ite {
                condition: 7,
                yes: 0,
                no: 10,
            }),
            Zeros(24, 11),
        ],
        12,
    ),
    // Two bytes.
    (
        &[],
        &[Ite {
            condition: 7,
            yes: 2,
            no: 3,
        }],
        &[
            Is(Ite {
                condition: 7,
                yes: 0,
                no: 1,
            }),
            Zeros(24, 9),
        ],
        10,
    ),
    // Two bytes with signs.
    (
        &[],
        &[Ite {
            condition: 7,
            yes: 4,
            no: 5,
        }],
        &[
            Is(Ite {
                condition: 7,
                yes: 0,
                no: 1,
            }),
            Signs(24, 9),
        ],
        10,
    ),
    // A byte, or -1.
    (
        &[0xFFFF_FFFF],
        &[Ite {
            condition: 7,
            yes: 2,
            no: 9,
        }],
        &[
            Zeros(1, 0),
            Number(9, 0x1FF),
            Is(Ite {
                condition: 7,
                yes: 10,
                no: 11,
            }),
            Signs(23, 12),
        ],
        13,
    ),
    // Two numbers, and a byte or a term of 32 bits, as they are.
    (
        &[5, 6],
        &[Ite {
            condition: 7,
            yes: 9,
            no: 10,
        }],
        &[Is(Ite {
            condition: 7,
            yes: 9,
            no: 10,
        })],
        11,
    ),
    (
        &[],
        &[Ite {
            condition: 7,
            yes: 2,
            no: 6,
        }],
        &[Is(Ite {
            condition: 7,
            yes: 2,
            no: 6,
        })],
        9,
    ),
];
