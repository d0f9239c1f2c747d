//! Terms with zeros at their low end: sums, products and comparisons are made of what stands above these.

use crate::of_term_simplify::narrow::New::{Above, Is, Number, Signs, Zeros};
use crate::of_term_simplify::narrow::Row;
use bv_dag::BinaryOp::{Add, Mul, Shl, Sub};
use bv_dag::Comparison::{Eq, Slt, Ult};
use bv_dag::Node::{Binary, Compare};

pub(crate) const ZEROS: &[Row] = &[
    // Two bytes with their signs, eight places up: 16 bits above 16 zeros.
    (
        &[8],
        &[Binary(Shl, 4, 9), Binary(Shl, 5, 9), Binary(Mul, 13, 16)],
        &[
            Signs(16, 0),
            Number(8, 0),
            Above(0, 11),
            Signs(16, 12),
            Signs(16, 1),
            Above(1, 11),
            Signs(16, 15),
            Signs(8, 0),
            Signs(8, 1),
            Is(Binary(Mul, 17, 18)),
            Number(16, 0),
            Above(19, 20),
        ],
        21,
    ),
    // Two bytes, eight and four places up: 28 bits, of which twelve are zeros.
    (
        &[8, 4],
        &[Binary(Shl, 2, 9), Binary(Shl, 3, 10), Binary(Mul, 14, 18)],
        &[
            Zeros(16, 0),
            Number(8, 0),
            Above(0, 12),
            Zeros(16, 13),
            Zeros(20, 1),
            Number(4, 0),
            Above(1, 16),
            Zeros(20, 17),
            Zeros(12, 13),
            Zeros(16, 17),
            Zeros(8, 0),
            Zeros(8, 1),
            Is(Binary(Mul, 21, 22)),
            Number(12, 0),
            Above(23, 24),
            Zeros(4, 25),
        ],
        26,
    ),
    // The sum of two bytes, eight places up: 9 bits above 8 zeros.
    (
        &[8],
        &[Binary(Shl, 2, 9), Binary(Shl, 3, 9), Binary(Add, 13, 16)],
        &[
            Zeros(16, 0),
            Number(8, 0),
            Above(0, 11),
            Zeros(16, 12),
            Zeros(16, 1),
            Above(1, 11),
            Zeros(16, 15),
            Zeros(1, 12),
            Zeros(1, 15),
            Zeros(1, 0),
            Zeros(1, 1),
            Is(Binary(Add, 19, 20)),
            Number(8, 0),
            Above(21, 22),
            Zeros(15, 23),
        ],
        24,
    ),
    // 0x300 less a byte, eight places up: 3 less the byte.
    (
        &[8, 0x300],
        &[Binary(Shl, 2, 9), Binary(Sub, 10, 14)],
        &[
            Zeros(16, 0),
            Number(8, 0),
            Above(0, 12),
            Zeros(16, 13),
            Number(17, 0x300),
            Zeros(1, 13),
            Number(9, 3),
            Zeros(1, 0),
            Is(Binary(Sub, 17, 18)),
            Above(19, 12),
            Signs(15, 20),
        ],
        21,
    ),
    // The upper two bytes of a word have zeros in common, and no other bit.
    (
        &[24, 16],
        &[Binary(Shl, 2, 9), Binary(Shl, 3, 10), Binary(Add, 12, 16)],
        &[
            Number(24, 0),
            Above(0, 11),
            Zeros(8, 1),
            Number(16, 0),
            Above(1, 14),
            Zeros(8, 15),
            Above(0, 15),
        ],
        17,
    ),
    // Two bytes, eight places up, are compared as the bytes are.
    (
        &[8],
        &[Binary(Shl, 2, 9), Binary(Shl, 3, 9), Compare(Ult, 13, 16)],
        &[
            Zeros(16, 0),
            Number(8, 0),
            Above(0, 11),
            Zeros(16, 12),
            Zeros(16, 1),
            Above(1, 11),
            Zeros(16, 15),
            Is(Compare(Ult, 0, 1)),
        ],
        17,
    ),
    // The same with their signs.
    (
        &[8],
        &[Binary(Shl, 4, 9), Binary(Shl, 5, 9), Compare(Slt, 13, 16)],
        &[
            Signs(16, 0),
            Number(8, 0),
            Above(0, 11),
            Signs(16, 12),
            Signs(16, 1),
            Above(1, 11),
            Signs(16, 15),
            Is(Compare(Slt, 0, 1)),
        ],
        17,
    ),
    // A byte, eight places up, is 0x300 where the byte is 3.
    (
        &[8, 0x300],
        &[Binary(Shl, 2, 9), Compare(Eq, 14, 10)],
        &[
            Zeros(16, 0),
            Number(8, 0),
            Above(0, 12),
            Zeros(16, 13),
            Number(8, 3),
            Is(Compare(Eq, 0, 15)),
        ],
        16,
    ),
    // The number 0 has all the zeros of a byte, eight places up.
    (
        &[8, 0],
        &[Binary(Shl, 2, 9), Compare(Ult, 10, 14)],
        &[
            Zeros(16, 0),
            Number(8, 0),
            Above(0, 12),
            Zeros(16, 13),
            Number(16, 0),
            Is(Compare(Ult, 12, 0)),
        ],
        16,
    ),
];
