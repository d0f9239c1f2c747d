//! Operations bit by bit; and what is not narrowed: where a number settles the operation, and where no fewer bits tell it.

use crate::of_term_simplify::narrow::New::{Above, Is, Low, Number, Signs, Zeros};
use crate::of_term_simplify::narrow::Row;
use bv_dag::BinaryOp::{Add, And, Ashr, Mul, Or, Shl, Sub, Urem, Xor};
use bv_dag::Comparison::Ult;
use bv_dag::Node::{Binary, Compare, Extract, Neg, Not};

pub(crate) const BITWISE: &[Row] = &[
    // A byte and a mask of 8 bits: its upper four above zeros.
    (
        &[0x0F0],
        &[Binary(And, 2, 9)],
        &[
            Number(8, 0xF0),
            Low(4, 0),
            Number(4, 0),
            Is(Extract {
                high: 7,
                low: 4,
                operand: 0,
            }),
            Above(13, 12),
            Zeros(24, 14),
        ],
        15,
    ),
    (
        &[0x0F0],
        &[Binary(And, 9, 2)],
        &[
            Number(8, 0xF0),
            Low(4, 0),
            Number(4, 0),
            Is(Extract {
                high: 7,
                low: 4,
                operand: 0,
            }),
            Above(13, 12),
            Zeros(24, 14),
        ],
        15,
    ),
    // A term of 32 bits and a mask of 8, which keeps all of these.
    (
        &[0xFF],
        &[Binary(And, 6, 9)],
        &[Low(8, 6), Number(8, 0xFF), Zeros(24, 10)],
        12,
    ),
    // It and a byte.
    (
        &[],
        &[Binary(And, 6, 2)],
        &[Low(8, 6), Is(Binary(And, 9, 0)), Zeros(24, 10)],
        11,
    ),
    // Two bytes.
    (
        &[],
        &[Binary(Or, 2, 3)],
        &[Is(Binary(Or, 0, 1)), Zeros(24, 9)],
        10,
    ),
    (
        &[],
        &[Binary(Xor, 2, 3)],
        &[Is(Binary(Xor, 0, 1)), Zeros(24, 9)],
        10,
    ),
    // Two bytes with signs.
    (
        &[],
        &[Binary(And, 4, 5)],
        &[Is(Binary(And, 0, 1)), Signs(24, 9)],
        10,
    ),
    (
        &[],
        &[Binary(Or, 4, 5)],
        &[Is(Binary(Or, 0, 1)), Signs(24, 9)],
        10,
    ),
    // One of each.
    (
        &[],
        &[Binary(Xor, 2, 5)],
        &[
            Zeros(1, 0),
            Signs(1, 1),
            Is(Binary(Xor, 9, 10)),
            Signs(23, 11),
        ],
        12,
    ),
    // A letter in the other case: bit 5 is the other one.
    (
        &[0x20],
        &[Binary(Xor, 2, 9)],
        &[
            Number(8, 0x20),
            Low(5, 0),
            Is(Extract {
                high: 7,
                low: 5,
                operand: 0,
            }),
            Is(Extract {
                high: 5,
                low: 5,
                operand: 0,
            }),
            Is(Not(13)),
            Is(Extract {
                high: 7,
                low: 6,
                operand: 0,
            }),
            Above(15, 14),
            Above(16, 11),
            Zeros(24, 17),
        ],
        18,
    ),
    // A byte ^ -1.
    (
        &[0xFFFF_FFFF],
        &[Binary(Xor, 2, 9)],
        &[Zeros(1, 0), Number(9, 0x1FF), Is(Not(10)), Signs(23, 12)],
        13,
    ),
    // Or with ones in the middle of a word.
    (
        &[0xFF00],
        &[Binary(Or, 9, 6)],
        &[
            Low(8, 6),
            Is(Extract {
                high: 31,
                low: 8,
                operand: 6,
            }),
            Is(Extract {
                high: 15,
                low: 8,
                operand: 6,
            }),
            Number(8, 0xFF),
            Is(Extract {
                high: 31,
                low: 16,
                operand: 6,
            }),
            Above(14, 13),
            Above(15, 10),
        ],
        16,
    ),
    // Seven runs: the upper three stay.
    (
        &[0xFFF0_F0F0],
        &[Binary(And, 6, 9)],
        &[
            Low(4, 6),
            Number(4, 0),
            Is(Extract {
                high: 31,
                low: 4,
                operand: 6,
            }),
            Is(Extract {
                high: 7,
                low: 4,
                operand: 6,
            }),
            Is(Extract {
                high: 31,
                low: 8,
                operand: 6,
            }),
            Is(Extract {
                high: 11,
                low: 8,
                operand: 6,
            }),
            Is(Extract {
                high: 31,
                low: 12,
                operand: 6,
            }),
            Is(Extract {
                high: 15,
                low: 12,
                operand: 6,
            }),
            Is(Extract {
                high: 31,
                low: 16,
                operand: 6,
            }),
            Number(16, 0xFFF0),
            Is(Binary(And, 18, 19)),
            Above(20, 17),
            Above(21, 11),
            Above(22, 13),
            Above(23, 11),
        ],
        24,
    ),
];

/// A number settles them: no new term.
pub(crate) const SETTLED: &[Row] = &[
    (&[0], &[Binary(Add, 2, 9)], &[], 2),
    (&[0], &[Binary(Sub, 2, 9)], &[], 2),
    (&[0], &[Binary(Or, 9, 2)], &[], 2),
    (&[0], &[Binary(Mul, 2, 9)], &[], 9),
    (&[0], &[Binary(And, 4, 9)], &[], 9),
    (&[0], &[Binary(Urem, 2, 9)], &[], 2),
    // Masks that mask nothing of a byte.
    (&[0xFF], &[Binary(And, 2, 9)], &[], 2),
    (&[0x1FF], &[Binary(And, 9, 2)], &[], 2),
];

/// All bits of an operand tell in them, or it isn't known how few.
pub(crate) const FULL: &[Row] = &[
    (&[], &[Binary(Add, 6, 2)], &[Is(Binary(Add, 6, 2))], 9),
    (&[], &[Binary(Sub, 6, 3)], &[Is(Binary(Sub, 6, 3))], 9),
    (&[], &[Binary(Mul, 6, 2)], &[Is(Binary(Mul, 6, 2))], 9),
    (&[], &[Binary(Or, 6, 2)], &[Is(Binary(Or, 6, 2))], 9),
    (
        &[0xFFFF_FFF0],
        &[Binary(And, 6, 9)],
        &[
            Low(4, 6),
            Number(4, 0),
            Is(Extract {
                high: 31,
                low: 4,
                operand: 6,
            }),
            Above(12, 11),
        ],
        13,
    ),
    (&[], &[Compare(Ult, 6, 2)], &[Is(Compare(Ult, 6, 2))], 9),
    (&[], &[Neg(6)], &[Is(Neg(6))], 9),
    // Shifts by a term: to the left, and with the sign.
    (&[], &[Binary(Shl, 2, 3)], &[Is(Binary(Shl, 2, 3))], 9),
    (&[], &[Binary(Ashr, 4, 5)], &[Is(Binary(Ashr, 4, 5))], 9),
];
