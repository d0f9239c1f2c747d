//! Questions over two to four input bytes, and whether some bytes answer them. Each row says by which arithmetic its
//! answer is known; z3 4.8.12 says the same of each.

use crate::of_query_front::terms::Term;
use crate::of_query_front::terms::Term::{
    Byte, If, Is, Join, Longer, Low, Not, Num, Of, Signed, Wide,
};
use bv_dag::BinaryOp::{Add, And, Ashr, Lshr, Mul, Or, Shl, Sub, Udiv, Urem, Xor};
use bv_dag::Comparison::{Eq, Slt, Ult};

/// Whether some bytes make all terms of a question 1.
#[derive(Clone, Copy, Debug, PartialEq, Eq)]
pub enum Known {
    Sat,
    Unsat,
}

use Known::{Sat, Unsat};

/// The answer, why it is so, and the terms that are to be 1.
pub type Row = (Known, &'static str, &'static [Term]);

const B0: Term = Byte(0);

const B1: Term = Byte(1);

const B2: Term = Byte(2);

const B3: Term = Byte(3);

// Bytes as numbers of 16 bits, and of 32 bits with a sign.
const LONG_0: Term = Longer(8, &B0);

const LONG_1: Term = Longer(8, &B1);

const SIGNED_0: Term = Signed(24, &B0);

const SIGNED_1: Term = Signed(24, &B1);

// Four bytes as a little-endian word.
const WORD: Term = Join(&Join(&B3, &B2), &Join(&B1, &B0));

const SUM_OF_TWO: Term = Of(Add, &B0, &B1);

const SUM_OF_THREE: Term = Of(Add, &SUM_OF_TWO, &B2);

const DIFFERENCE: Term = Of(Sub, &B0, &B1);

const SUM_WITH_SIGN: Term = Of(Add, &SIGNED_0, &SIGNED_1);

pub const SUMS: &[Row] = &[
    (
        Unsat,
        "a sum and a difference are both even or both odd",
        &[Is(Eq, &SUM_OF_TWO, &Num(5)), Is(Eq, &DIFFERENCE, &Num(2))],
    ),
    (
        Sat,
        "4 and 2",
        &[Is(Eq, &SUM_OF_TWO, &Num(6)), Is(Eq, &DIFFERENCE, &Num(2))],
    ),
    (
        Unsat,
        "three numbers from 1 to 85 have a sum from 3 to 255",
        &[
            Is(Eq, &SUM_OF_THREE, &Num(0)),
            Is(Ult, &Of(Sub, &B0, &Num(1)), &Num(85)),
            Is(Ult, &Of(Sub, &B1, &Num(1)), &Num(85)),
            Is(Ult, &Of(Sub, &B2, &Num(1)), &Num(85)),
        ],
    ),
    (
        Sat,
        "86 and 85 and 85 are 256",
        &[
            Is(Eq, &SUM_OF_THREE, &Num(0)),
            Is(Ult, &Of(Sub, &B0, &Num(1)), &Num(86)),
            Is(Ult, &Of(Sub, &B1, &Num(1)), &Num(85)),
            Is(Ult, &Of(Sub, &B2, &Num(1)), &Num(85)),
        ],
    ),
    (
        Sat,
        "-128 twice",
        &[Is(Eq, &SUM_WITH_SIGN, &Wide(32, 0xFFFF_FF00))],
    ),
    (
        Unsat,
        "no two bytes with a sign have a sum below -256",
        &[Is(Eq, &SUM_WITH_SIGN, &Wide(32, 0xFFFF_FEFF))],
    ),
];

const PRODUCT: Term = Of(Mul, &B0, &B1);

const LONG_PRODUCT: Term = Of(Mul, &LONG_0, &LONG_1);

// The lowest four bits of three bytes, squared.
const SQUARE_0: Term = Of(Mul, &Longer(12, &Low(3, &B0)), &Longer(12, &Low(3, &B0)));

const SQUARE_1: Term = Of(Mul, &Longer(12, &Low(3, &B1)), &Longer(12, &Low(3, &B1)));

const SQUARE_2: Term = Of(Mul, &Longer(12, &Low(3, &B2)), &Longer(12, &Low(3, &B2)));

const SQUARES: Term = Of(Add, &SQUARE_0, &SQUARE_1);

pub const PRODUCTS: &[Row] = &[
    (
        Unsat,
        "251 is a prime",
        &[
            Is(Eq, &LONG_PRODUCT, &Wide(16, 251)),
            Is(Ult, &Num(1), &B0),
            Is(Ult, &Num(1), &B1),
        ],
    ),
    (
        Sat,
        "13 by 17",
        &[
            Is(Eq, &LONG_PRODUCT, &Wide(16, 221)),
            Is(Ult, &Num(1), &B0),
            Is(Ult, &B0, &B1),
        ],
    ),
    (
        Unsat,
        "an even number has no inverse modulo 256",
        &[Is(Eq, &PRODUCT, &Num(1)), Not(&Low(0, &B0))],
    ),
    (
        Sat,
        "3 by 171 is 513",
        &[Is(Eq, &PRODUCT, &Num(1)), Is(Eq, &B0, &Num(3))],
    ),
    (
        Sat,
        "the squares of 3, 4 and 5",
        &[
            Is(Eq, &SQUARES, &SQUARE_2),
            Is(Ult, &Num(0), &Of(And, &B0, &B1)),
        ],
    ),
    (
        Unsat,
        "a sum of two squares is three times a square only where all are 0",
        &[
            Is(Eq, &SQUARES, &Of(Mul, &SQUARE_2, &Wide(16, 3))),
            Is(Ult, &Num(0), &Of(And, &B2, &Num(15))),
        ],
    ),
    (
        Sat,
        "3 by 0xAAAAAAAB is 2 to the 33 and 1",
        &[Is(Eq, &Of(Mul, &WORD, &Wide(32, 3)), &Wide(32, 1))],
    ),
    (
        Unsat,
        "six times a number is even",
        &[Is(Eq, &Of(Mul, &WORD, &Wide(32, 6)), &Wide(32, 1))],
    ),
];

const QUOTIENT: Term = Of(Udiv, &B0, &B1);

const REMAINDER: Term = Of(Urem, &B0, &B1);

pub const QUOTIENTS: &[Row] = &[
    (
        Unsat,
        "30 by more than 9, and 9, is over 255",
        &[Is(Eq, &QUOTIENT, &Num(30)), Is(Eq, &REMAINDER, &Num(9))],
    ),
    (
        Sat,
        "79 is 7 by 10 and 9",
        &[Is(Eq, &QUOTIENT, &Num(7)), Is(Eq, &REMAINDER, &Num(9))],
    ),
    (
        Sat,
        "the quotient by 0 is 255",
        &[Is(Eq, &QUOTIENT, &Num(255)), Is(Ult, &B0, &Num(255))],
    ),
    (
        Unsat,
        "a quotient by 2 or more is at most 127",
        &[Is(Eq, &QUOTIENT, &Num(255)), Is(Ult, &Num(1), &B1)],
    ),
    (
        Sat,
        "the remainder by 0 is the dividend",
        &[Is(Eq, &REMAINDER, &B0), Not(&Is(Ult, &B0, &B1))],
    ),
    (
        Unsat,
        "a remainder is below the divisor",
        &[
            Is(Eq, &REMAINDER, &B0),
            Not(&Is(Ult, &B0, &B1)),
            Is(Ult, &Num(0), &B1),
        ],
    ),
    (
        Unsat,
        "the quotient by the divisor, and the remainder, are the dividend",
        &[
            Is(Ult, &B0, &Num(16)),
            Is(Ult, &B1, &Num(16)),
            Not(&Is(Eq, &Of(Add, &Of(Mul, &QUOTIENT, &B1), &REMAINDER), &B0)),
        ],
    ),
];

const LEFT: Term = Of(Shl, &B0, &B1);

const RIGHT: Term = Of(Lshr, &B0, &B1);

const WITH_SIGN: Term = Of(Ashr, &B0, &B1);

pub const SHIFTS: &[Row] = &[
    (
        Unsat,
        "what was shifted up is even",
        &[Is(Eq, &LEFT, &Num(3)), Is(Ult, &Num(0), &B1)],
    ),
    (
        Sat,
        "3 by 5 bits",
        &[Is(Eq, &LEFT, &Num(96)), Is(Ult, &B0, &Num(4))],
    ),
    (
        Unsat,
        "half of a number, rounded down, is another unless it is 0",
        &[
            Is(Eq, &RIGHT, &B0),
            Is(Ult, &Num(0), &B0),
            Is(Ult, &Num(0), &B1),
        ],
    ),
    (
        Sat,
        "255 with its sign shifted in",
        &[
            Is(Eq, &WITH_SIGN, &B0),
            Is(Ult, &Num(0), &B0),
            Is(Ult, &Num(0), &B1),
        ],
    ),
    (
        Unsat,
        "what is negative stays so",
        &[Is(Eq, &WITH_SIGN, &Num(1)), Is(Slt, &B0, &Num(0))],
    ),
    (
        Unsat,
        "nothing is left by 8 bits or more",
        &[
            Is(Ult, &Num(0), &Of(Or, &LEFT, &RIGHT)),
            Is(Ult, &Num(7), &B1),
        ],
    ),
    (
        Sat,
        "170 up and down by 2 bits",
        &[
            Is(Eq, &Of(Lshr, &LEFT, &B1), &Num(42)),
            Is(Eq, &B0, &Num(170)),
        ],
    ),
];

// The greatest of three bytes.
const GREATER: Term = If(&Is(Ult, &B0, &B1), &B1, &B0);

const GREATEST: Term = If(&Is(Ult, &GREATER, &B2), &B2, &GREATER);

pub const COMPARISONS: &[Row] = &[
    (
        Sat,
        "1 and 128, which is negative",
        &[Is(Ult, &B0, &B1), Is(Slt, &B1, &B0)],
    ),
    (
        Unsat,
        "less is not mutual",
        &[Is(Slt, &B0, &B1), Is(Slt, &B1, &B0)],
    ),
    (
        Unsat,
        "less is transitive",
        &[Is(Ult, &B0, &B1), Is(Ult, &B1, &B2), Is(Ult, &B2, &B0)],
    ),
    (
        Unsat,
        "none is above the greatest",
        &[Is(Ult, &GREATEST, &B0)],
    ),
    (
        Sat,
        "the third may be the greatest alone",
        &[Is(Eq, &GREATEST, &B2), Is(Ult, &GREATER, &B2)],
    ),
    (
        Unsat,
        "four in order span 3 at least",
        &[
            Is(Ult, &B0, &B1),
            Is(Ult, &B1, &B2),
            Is(Ult, &B2, &B3),
            Is(Ult, &Of(Sub, &B3, &B0), &Num(3)),
        ],
    ),
    (
        Sat,
        "0, 1, 2 and 3",
        &[
            Is(Ult, &B0, &B1),
            Is(Ult, &B1, &B2),
            Is(Ult, &B2, &B3),
            Is(Ult, &Of(Sub, &B3, &B0), &Num(4)),
        ],
    ),
    (
        Unsat,
        "four even numbers",
        &[
            Is(
                Eq,
                &Of(Xor, &Of(Xor, &B0, &B1), &Of(Xor, &B2, &B3)),
                &Num(1),
            ),
            Not(&Low(0, &Of(Or, &Of(Or, &B0, &B1), &Of(Or, &B2, &B3)))),
        ],
    ),
];
