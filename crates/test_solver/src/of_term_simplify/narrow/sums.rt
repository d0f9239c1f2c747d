//! Sums and differences: a sum has one bit more than the longer operand, and so has a difference, with its sign.

use crate::of_term_simplify::narrow::New::{Is, Number, Signs, Zeros};
use crate::of_term_simplify::narrow::Row;
use bv_dag::BinaryOp::{Add, Sub};
use bv_dag::Node::{Binary, Neg, Not};

pub(crate) const SUMS: &[Row] = &[
    // Two bytes: the numbers below 511 take 9 bits.
    (
        &[],
        &[Binary(Add, 2, 3)],
        &[
            Zeros(1, 0),
            Zeros(1, 1),
            Is(Binary(Add, 9, 10)),
            Zeros(23, 11),
        ],
        12,
    ),
    // Three bytes: 10 bits, since each sum has one more.
    (
        &[],
        &[Binary(Add, 2, 3), Binary(Add, 12, 2)],
        &[
            Zeros(1, 0),
            Zeros(1, 1),
            Is(Binary(Add, 9, 10)),
            Zeros(23, 11),
            Zeros(1, 11),
            Zeros(2, 0),
            Is(Binary(Add, 13, 14)),
            Zeros(22, 15),
        ],
        16,
    ),
    // Two bytes with signs.
    (
        &[],
        &[Binary(Add, 4, 5)],
        &[
            Signs(1, 0),
            Signs(1, 1),
            Is(Binary(Add, 9, 10)),
            Signs(23, 11),
        ],
        12,
    ),
    // One without sign, which takes 9 bits with a sign, and one with.
    (
        &[],
        &[Binary(Add, 2, 5)],
        &[
            Zeros(2, 0),
            Signs(2, 1),
            Is(Binary(Add, 9, 10)),
            Signs(22, 11),
        ],
        12,
    ),
    // 200 has 8 bits.
    (
        &[200],
        &[Binary(Add, 2, 9)],
        &[
            Zeros(1, 0),
            Number(9, 200),
            Is(Binary(Add, 10, 11)),
            Zeros(23, 12),
        ],
        13,
    ),
    // -48 has 7 bits with its sign, the byte 9.
    (
        &[0xFFFF_FFD0],
        &[Binary(Add, 2, 9)],
        &[
            Zeros(2, 0),
            Number(10, 0x3D0),
            Is(Binary(Add, 10, 11)),
            Signs(22, 12),
        ],
        13,
    ),
];

pub(crate) const DIFFERENCES: &[Row] = &[
    // Two bytes: from -255 to 255.
    (
        &[],
        &[Binary(Sub, 2, 3)],
        &[
            Zeros(1, 0),
            Zeros(1, 1),
            Is(Binary(Sub, 9, 10)),
            Signs(23, 11),
        ],
        12,
    ),
    // Two bytes with signs.
    (
        &[],
        &[Binary(Sub, 4, 5)],
        &[
            Signs(1, 0),
            Signs(1, 1),
            Is(Binary(Sub, 9, 10)),
            Signs(23, 11),
        ],
        12,
    ),
    // One without sign less one with.
    (
        &[],
        &[Binary(Sub, 2, 5)],
        &[
            Zeros(2, 0),
            Signs(2, 1),
            Is(Binary(Sub, 9, 10)),
            Signs(22, 11),
        ],
        12,
    ),
    // A byte less 48.
    (
        &[48],
        &[Binary(Sub, 2, 9)],
        &[
            Zeros(1, 0),
            Number(9, 48),
            Is(Binary(Sub, 10, 11)),
            Signs(23, 12),
        ],
        13,
    ),
    // The number 0 less a byte is the negative of the byte. Less the complement of one, it is the byte and 1.
    (
        &[0],
        &[Binary(Sub, 9, 2)],
        &[Number(9, 0), Zeros(1, 0), Is(Neg(11)), Signs(23, 12)],
        13,
    ),
    (
        &[0],
        &[Not(2), Binary(Sub, 9, 10)],
        &[
            Is(Not(2)),
            Number(32, 1),
            Zeros(1, 0),
            Number(9, 1),
            Is(Binary(Add, 12, 13)),
            Zeros(23, 14),
        ],
        15,
    ),
    // The negative of a byte without and with sign: -(-128) takes 9 bits.
    (
        &[],
        &[Neg(2)],
        &[Zeros(1, 0), Is(Neg(9)), Signs(23, 10)],
        11,
    ),
    (
        &[],
        &[Neg(4)],
        &[Signs(1, 0), Is(Neg(9)), Signs(23, 10)],
        11,
    ),
    // That of a bit.
    (
        &[],
        &[Neg(8)],
        &[Zeros(1, 7), Is(Neg(9)), Signs(30, 10)],
        11,
    ),
];
