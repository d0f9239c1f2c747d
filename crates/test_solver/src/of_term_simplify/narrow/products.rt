//! Products, which have as many bits as both operands, and quotients and remainders, which have no more than the longer one.

use crate::of_term_simplify::narrow::New::{Is, Low, Number, Signs, Zeros};
use crate::of_term_simplify::narrow::Row;
use bv_dag::BinaryOp::{Add, Lshr, Mul, Sub, Udiv, Urem};
use bv_dag::Comparison::Eq;
use bv_dag::Node::{Binary, Compare, Concat, Extend, Extract, Ite, Neg};

pub(crate) const PRODUCTS: &[Row] = &[
    // Two bytes, without sign, with signs, and one of each, where the first takes 9 bits with a sign.
    (
        &[],
        &[Binary(Mul, 2, 3)],
        &[
            Zeros(8, 0),
            Zeros(8, 1),
            Is(Binary(Mul, 9, 10)),
            Zeros(16, 11),
        ],
        12,
    ),
    (
        &[],
        &[Binary(Mul, 4, 5)],
        &[
            Signs(8, 0),
            Signs(8, 1),
            Is(Binary(Mul, 9, 10)),
            Signs(16, 11),
        ],
        12,
    ),
    (
        &[],
        &[Binary(Mul, 2, 5)],
        &[
            Zeros(9, 0),
            Signs(9, 1),
            Is(Binary(Mul, 9, 10)),
            Signs(15, 11),
        ],
        12,
    ),
    // 10 has 4 bits, and is 2 * (4 + 1): the sum is of 11 bits, and what is moved up by 2 of 9.
    (
        &[10],
        &[Binary(Mul, 2, 9)],
        &[
            Zeros(4, 0),
            Number(12, 10),
            Zeros(3, 0),
            Zeros(1, 0),
            Number(2, 0),
            Is(Concat { high: 0, low: 14 }),
            Zeros(1, 15),
            Is(Binary(Add, 16, 12)),
            Number(1, 0),
            Is(Concat { high: 17, low: 18 }),
            Zeros(20, 19),
        ],
        20,
    ),
    // A word by 3, which is 4 - 1, on either side; by -1; and by -3, which is -4 + 1.
    (
        &[3],
        &[Binary(Mul, 6, 9)],
        &[
            Low(30, 6),
            Number(2, 0),
            Is(Concat { high: 10, low: 11 }),
            Is(Binary(Sub, 12, 6)),
        ],
        13,
    ),
    (
        &[3],
        &[Binary(Mul, 9, 6)],
        &[
            Low(30, 6),
            Number(2, 0),
            Is(Concat { high: 10, low: 11 }),
            Is(Binary(Sub, 12, 6)),
        ],
        13,
    ),
    (&[0xFFFF_FFFF], &[Binary(Mul, 6, 9)], &[Is(Neg(6))], 10),
    (
        &[0xFFFF_FFFD],
        &[Binary(Mul, 6, 9)],
        &[
            Low(30, 6),
            Is(Neg(10)),
            Number(2, 0),
            Is(Concat { high: 11, low: 12 }),
            Is(Binary(Add, 13, 6)),
        ],
        14,
    ),
    // A product by 1 is the operand: the same tree, at a place of its own.
    (
        &[1],
        &[Binary(Mul, 2, 9)],
        &[Zeros(1, 0), Number(9, 1), Zeros(24, 0)],
        12,
    ),
    // The upper word of the product of two bytes is 0.
    (
        &[],
        &[
            Extend {
                by: 32,
                signed: false,
                operand: 2,
            },
            Extend {
                by: 32,
                signed: false,
                operand: 3,
            },
            Binary(Mul, 9, 10),
            Extract {
                high: 63,
                low: 32,
                operand: 14,
            },
        ],
        &[
            Zeros(56, 0),
            Zeros(56, 1),
            Zeros(8, 0),
            Zeros(8, 1),
            Is(Binary(Mul, 11, 12)),
            Zeros(48, 13),
            Number(32, 0),
        ],
        15,
    ),
];

pub(crate) const QUOTIENTS: &[Row] = &[
    // By 3.
    (
        &[3],
        &[Binary(Udiv, 2, 9)],
        &[Number(8, 3), Is(Binary(Udiv, 0, 10)), Zeros(24, 11)],
        12,
    ),
    // By a term, which may be 0: a quotient of ones, of which 9 bits with a sign tell all.
    (
        &[],
        &[Binary(Udiv, 2, 3)],
        &[
            Is(Binary(Udiv, 0, 1)),
            Zeros(24, 9),
            Number(8, 0),
            Is(Compare(Eq, 1, 11)),
            Number(32, 0xFFFF_FFFF),
            Number(9, 511),
            Zeros(1, 9),
            Is(Ite {
                condition: 12,
                yes: 14,
                no: 15,
            }),
            Signs(23, 16),
        ],
        17,
    ),
    // By a byte and 1, which is never 0.
    (
        &[1],
        &[Binary(Add, 3, 9), Binary(Udiv, 2, 13)],
        &[
            Zeros(1, 1),
            Number(9, 1),
            Is(Binary(Add, 10, 11)),
            Zeros(23, 12),
            Zeros(1, 0),
            Is(Binary(Udiv, 14, 12)),
            Zeros(23, 15),
        ],
        16,
    ),
    // By a term of 32 bits.
    (&[], &[Binary(Udiv, 2, 6)], &[Is(Binary(Udiv, 2, 6))], 9),
    // By 0.
    (&[0], &[Binary(Udiv, 2, 9)], &[Number(32, 0xFFFF_FFFF)], 10),
];

pub(crate) const REMAINDERS: &[Row] = &[
    // By 10, and by a term, which may be 0: the byte.
    (
        &[10],
        &[Binary(Urem, 2, 9)],
        &[Number(8, 10), Is(Binary(Urem, 0, 10)), Zeros(24, 11)],
        12,
    ),
    (
        &[],
        &[Binary(Urem, 2, 3)],
        &[Is(Binary(Urem, 0, 1)), Zeros(24, 9)],
        10,
    ),
    // By a term of 32 bits.
    (&[], &[Binary(Urem, 2, 6)], &[Is(Binary(Urem, 2, 6))], 9),
    // A shift to the right by a term.
    (
        &[],
        &[Binary(Lshr, 2, 3)],
        &[Is(Binary(Lshr, 0, 1)), Zeros(24, 9)],
        10,
    ),
];
