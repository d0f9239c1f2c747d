//! Quotients and remainders by a number: bits of the term by a power of two, and a long division where the term has more than 8
//! bits.

use crate::of_term_simplify::narrow::New::{Above, Is, Low, Number, Signs, Zeros};
use crate::of_term_simplify::narrow::Row;
use bv_dag::BinaryOp::{Add, Sub, Udiv, Urem};
use bv_dag::Node::{Binary, Extract, Ite, Not};

pub(crate) const POWERS: &[Row] = &[
    // A word by 16: its upper bits, and its lower four.
    (
        &[16],
        &[Binary(Udiv, 6, 9)],
        &[
            Is(Extract {
                high: 31,
                low: 4,
                operand: 6,
            }),
            Zeros(4, 10),
        ],
        11,
    ),
    (
        &[16],
        &[Binary(Urem, 6, 9)],
        &[Low(4, 6), Zeros(28, 10)],
        11,
    ),
    // A byte by 16, at 8 bits.
    (
        &[16],
        &[Binary(Udiv, 2, 9)],
        &[
            Number(8, 16),
            Is(Extract {
                high: 7,
                low: 4,
                operand: 0,
            }),
            Zeros(4, 11),
            Zeros(28, 11),
        ],
        13,
    ),
    // A byte with its sign, which may be a large number, by 4.
    (
        &[4],
        &[Binary(Udiv, 4, 9)],
        &[
            Is(Extract {
                high: 7,
                low: 2,
                operand: 0,
            }),
            Signs(24, 10),
            Zeros(2, 11),
        ],
        12,
    ),
];

pub(crate) const STAGES: &[Row] = &[
    // A word by a number of 32 bits: one stage, of 33 bits. The 31 upper bits are the first remainder; with the lowest bit below
    // them they are what the number is taken from.
    (
        &[0xC000_0000],
        &[Binary(Urem, 6, 9)],
        &[
            Is(Extract {
                high: 31,
                low: 1,
                operand: 6,
            }),
            Zeros(1, 10),
            Low(1, 6),
            Above(10, 12),
            Zeros(1, 13),
            Number(33, 0xC000_0000),
            Is(Binary(Sub, 14, 15)),
            Is(Extract {
                high: 32,
                low: 32,
                operand: 16,
            }),
            Low(32, 16),
            Is(Ite {
                condition: 17,
                yes: 13,
                no: 18,
            }),
        ],
        19,
    ),
    // A byte by 1000 is 0.
    (&[1000], &[Binary(Udiv, 2, 9)], &[Number(32, 0)], 10),
    // The sum of two bytes by 300, both of 9 bits: one bit of the quotient, under eight zeros.
    (
        &[300],
        &[Binary(Add, 2, 3), Binary(Udiv, 13, 9)],
        &[
            Zeros(1, 0),
            Zeros(1, 1),
            Is(Binary(Add, 10, 11)),
            Zeros(23, 12),
            Number(9, 300),
            Is(Extract {
                high: 8,
                low: 1,
                operand: 12,
            }),
            Zeros(1, 15),
            Number(8, 0),
            Low(1, 12),
            Above(15, 18),
            Zeros(1, 19),
            Number(10, 300),
            Is(Binary(Sub, 20, 21)),
            Is(Extract {
                high: 9,
                low: 9,
                operand: 22,
            }),
            Low(9, 22),
            Is(Ite {
                condition: 23,
                yes: 19,
                no: 24,
            }),
            Is(Not(23)),
            Zeros(8, 26),
            Zeros(31, 26),
        ],
        28,
    ),
    // The sum of two bytes, which has 9 bits, by 200, which has 8: two stages, from the 7 upper bits on.
    (
        &[200],
        &[Binary(Add, 2, 3), Binary(Urem, 13, 9)],
        &[
            Zeros(1, 0),
            Zeros(1, 1),
            Is(Binary(Add, 10, 11)),
            Zeros(23, 12),
            Number(9, 200),
            Is(Extract {
                high: 8,
                low: 2,
                operand: 12,
            }),
            Zeros(1, 15),
            Is(Extract {
                high: 1,
                low: 1,
                operand: 12,
            }),
            Above(15, 17),
            Zeros(1, 18),
            Is(Binary(Sub, 19, 14)),
            Is(Extract {
                high: 8,
                low: 8,
                operand: 20,
            }),
            Low(8, 20),
            Is(Ite {
                condition: 21,
                yes: 18,
                no: 22,
            }),
            Low(1, 12),
            Above(23, 24),
            Number(9, 200),
            Is(Binary(Sub, 25, 26)),
            Is(Extract {
                high: 8,
                low: 8,
                operand: 27,
            }),
            Low(8, 25),
            Low(8, 27),
            Is(Ite {
                condition: 28,
                yes: 29,
                no: 30,
            }),
            Zeros(1, 31),
            Zeros(24, 31),
        ],
        33,
    ),
];
