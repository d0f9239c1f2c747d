//! Sums and differences with numbers, which are then one, and with negatives.

use crate::of_term_simplify::narrow::New::{Is, Number, Signs, Zeros};
use crate::of_term_simplify::narrow::Row;
use bv_dag::BinaryOp::{Add, Mul, Sub};
use bv_dag::Comparison::Eq;
use bv_dag::Node::{Binary, Compare, Neg, Not};

pub(crate) const OFFSETS: &[Row] = &[
    // A word and 5 and 7; 5 less it and 7; 5 less it and 7 together; it less 5 and less 7.
    (
        &[5, 7],
        &[Binary(Mul, 6, 2), Binary(Add, 11, 9), Binary(Add, 12, 10)],
        &[
            Is(Binary(Mul, 6, 2)),
            Is(Binary(Add, 11, 9)),
            Number(32, 12),
            Is(Binary(Add, 11, 13)),
        ],
        14,
    ),
    (
        &[5, 7],
        &[Binary(Mul, 6, 2), Binary(Sub, 9, 11), Binary(Add, 10, 12)],
        &[
            Is(Binary(Mul, 6, 2)),
            Is(Binary(Sub, 9, 11)),
            Number(32, 12),
            Is(Binary(Sub, 13, 11)),
        ],
        14,
    ),
    (
        &[5, 7],
        &[Binary(Mul, 6, 2), Binary(Add, 10, 11), Binary(Sub, 9, 12)],
        &[
            Is(Binary(Mul, 6, 2)),
            Is(Binary(Add, 11, 10)),
            Number(32, 0xFFFF_FFFE),
            Is(Binary(Sub, 13, 11)),
        ],
        14,
    ),
    (
        &[5, 7],
        &[Binary(Mul, 6, 2), Binary(Sub, 11, 9), Binary(Sub, 12, 10)],
        &[
            Is(Binary(Mul, 6, 2)),
            Is(Binary(Sub, 11, 9)),
            Number(32, 0xFFFF_FFF4),
            Is(Binary(Add, 11, 13)),
        ],
        14,
    ),
    // 7 less (5 less a word) is the word and 2, and a word and 5 less 5 is the word.
    (
        &[5, 7],
        &[Binary(Mul, 6, 2), Binary(Sub, 9, 11), Binary(Sub, 10, 12)],
        &[
            Is(Binary(Mul, 6, 2)),
            Is(Binary(Sub, 9, 11)),
            Number(32, 2),
            Is(Binary(Add, 11, 13)),
        ],
        14,
    ),
    (
        &[5],
        &[Binary(Mul, 6, 2), Binary(Add, 10, 9), Binary(Sub, 11, 9)],
        &[Is(Binary(Mul, 6, 2)), Is(Binary(Add, 10, 9)), Number(32, 0)],
        10,
    ),
    // The complement of a byte in 32 bits and 5 is 4 less the byte, in 9 bits; and 1, its negative.
    (
        &[5],
        &[Not(2), Binary(Add, 10, 9)],
        &[
            Is(Not(2)),
            Number(32, 4),
            Number(9, 4),
            Zeros(1, 0),
            Is(Binary(Sub, 12, 13)),
            Signs(23, 14),
        ],
        15,
    ),
    (
        &[1],
        &[Not(2), Binary(Add, 10, 9)],
        &[
            Is(Not(2)),
            Number(32, 0),
            Number(9, 0),
            Zeros(1, 0),
            Is(Neg(13)),
            Signs(23, 14),
        ],
        15,
    ),
    // A negative is taken off where it would be added, on either side, and added where it would be taken off.
    (
        &[],
        &[Neg(6), Binary(Add, 2, 9)],
        &[Is(Neg(6)), Is(Binary(Sub, 2, 6))],
        10,
    ),
    (
        &[],
        &[Neg(6), Binary(Add, 9, 2)],
        &[Is(Neg(6)), Is(Binary(Sub, 2, 6))],
        10,
    ),
    (
        &[],
        &[Neg(6), Binary(Sub, 2, 9)],
        &[Is(Neg(6)), Is(Binary(Add, 2, 6))],
        10,
    ),
    // A byte and 5 and 7: the sum that is widened doesn't wrap.
    (
        &[5, 7],
        &[Binary(Add, 2, 9), Binary(Add, 14, 10)],
        &[
            Zeros(1, 0),
            Number(9, 5),
            Is(Binary(Add, 11, 12)),
            Zeros(23, 13),
            Zeros(24, 0),
            Number(32, 12),
            Number(9, 12),
            Is(Binary(Add, 11, 17)),
            Zeros(23, 18),
        ],
        19,
    ),
    // A byte and 1, and another and 2: their sum and 3; and where they are equal, the first is the second and 1.
    (
        &[1, 2],
        &[Binary(Add, 2, 9), Binary(Add, 3, 10), Binary(Add, 14, 18)],
        &[
            Zeros(1, 0),
            Number(9, 1),
            Is(Binary(Add, 11, 12)),
            Zeros(23, 13),
            Zeros(1, 1),
            Number(9, 2),
            Is(Binary(Add, 15, 16)),
            Zeros(23, 17),
            Zeros(24, 0),
            Zeros(24, 1),
            Zeros(1, 0),
            Is(Binary(Add, 21, 15)),
            Zeros(23, 22),
            Number(32, 3),
            Zeros(1, 22),
            Number(10, 3),
            Is(Binary(Add, 25, 26)),
            Zeros(22, 27),
        ],
        28,
    ),
    (
        &[1, 2],
        &[Binary(Add, 2, 9), Binary(Add, 3, 10), Compare(Eq, 14, 18)],
        &[
            Zeros(1, 0),
            Number(9, 1),
            Is(Binary(Add, 11, 12)),
            Zeros(23, 13),
            Zeros(1, 1),
            Number(9, 2),
            Is(Binary(Add, 15, 16)),
            Zeros(23, 17),
            Zeros(24, 0),
            Zeros(24, 1),
            Number(32, 1),
            Number(9, 1),
            Is(Binary(Add, 15, 22)),
            Zeros(23, 23),
            Zeros(1, 0),
            Is(Compare(Eq, 25, 23)),
        ],
        26,
    ),
];
