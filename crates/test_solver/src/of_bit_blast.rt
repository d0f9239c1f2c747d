//! Clauses written out by hand, and what constant terms come to by unit propagation.

ghost use Rattle.std.specs.Prelude.{◌≡◌, ◌<◌, IfOk, OnOk, length};

use bit_blast::{Encoding, encode};
use bv_dag::{BinaryOp, Comparison, Dag, Node, Query};
use cnf_form::{Cnf, Lit, Val};
use std::alloc::{AllocError as NoMemory, Global};
use std::process::Abort;
use std::test::Fail;

fn push(rt: &impl Abort, dag: &mut Dag, node: Node) -> Result<usize, NoMemory>
    ensures place { IfOk result (λ id. id < length dag.new.nodes) }
    ensures inputs { OnOk result (dag.new.inputs ≡ dag.old.inputs) }
{
    assert!(rt; dag.fits(&node));
    dag.push(node)
}

// Puts these terms behind the others, and answers the place of the last.
fn push_all(rt: &impl Abort, dag: &mut Dag, nodes: &[Node]) -> Result<usize, NoMemory> {
    let mut last = 0;
    for node in nodes {
        last = push(rt, dag, *node)?;
    }
    Ok(last)
}

// Asks for a term to be 1.
fn ask(rt: &impl Abort, query: &mut Query, id: usize) -> Result<(), NoMemory> {
    assert!(rt; id < query.dag().len() && query.dag().width_of(id) == 1);
    query.assert(id)
}

// The condition that the last of these terms, over one input byte, is 1.
fn query_of(rt: &impl Abort, alloc: Global, nodes: &[Node]) -> Result<Query, NoMemory> {
    let mut dag = Dag::new(alloc, 1);
    let last = push_all(rt, &mut dag, nodes)?;
    let mut query = Query::new(dag, Vec::new(alloc));
    ask(rt, &mut query, last)?;
    Ok(query)
}

// The clauses of that condition, with the literals of the input byte.
fn encoded(rt: &impl Abort, alloc: Global, nodes: &[Node]) -> Result<Encoding, NoMemory> {
    let query = query_of(rt, alloc, nodes)?;
    encode(alloc, &query)
}

// A literal as in the format of solvers: its variable, with a minus sign for a negation.
fn signed(literal: Lit) -> i64 {
    let variable = i64::from(literal.variable());
    if literal.is_positive() {
        variable
    } else {
        0 - variable
    }
}

// What is left of a text behind the numbers of this clause and a 0, if it begins with these.
fn behind<'a>(clause: &[Lit], text: &'a [i64]) -> Option<&'a [i64]> {
    let mut left = text;
    for literal in clause {
        match left {
            [number, rest @ ..] if *number == signed(*literal) => left = rest,
            _ => return None,
        }
    }
    match left {
        [0, rest @ ..] => Some(rest),
        _ => None,
    }
}

// Whether a formula has just the clauses of a text.
fn is(formula: &Cnf, text: &[i64]) -> bool {
    let clauses = formula.clauses();
    let mut left = text;
    for place in 0..clauses.len() {
        match behind(clauses.at(place), left) {
            Some(rest) => left = rest,
            None => return false,
        }
    }
    left.is_empty()
}

/// Terms over one input byte, of which the last is to be 1, and the clauses of that, with a 0 behind each.
type Example = (&'static str, &'static [Node], &'static [i64]);

// Bits of the input byte, whose variables are 2 to 9.
const BIT_0: Node = Node::Extract {
    high: 0,
    low: 0,
    operand: 0,
};

const BIT_1: Node = Node::Extract {
    high: 1,
    low: 1,
    operand: 0,
};

const BIT_2: Node = Node::Extract {
    high: 2,
    low: 2,
    operand: 0,
};

const BITS_0_TO_1: Node = Node::Extract {
    high: 1,
    low: 0,
    operand: 0,
};

const BITS_2_TO_3: Node = Node::Extract {
    high: 3,
    low: 2,
    operand: 0,
};

const EXAMPLES: &[Example] = &[
    (
        "one bit is one",
        &[
            Node::Input(0),
            BIT_0,
            Node::Num { width: 1, value: 1 },
            Node::Compare(Comparison::Eq, 1, 2),
        ],
        &[
            1, 0, 1, 2, -10, 0, -1, -2, -10, 0, 1, -2, 10, 0, -1, 2, 10, 0, 1, -11, 0, -10, -11, 0,
            -1, 10, 11, 0, 11, 0,
        ],
    ),
    (
        "one bit is doubled",
        &[Node::Input(0), BIT_0, Node::Binary(BinaryOp::Add, 1, 1)],
        &[
            1, 0, -1, 2, -10, 0, 1, 2, 10, 0, -1, -2, -10, 0, 1, -2, 10, 0, -2, 11, 0, 1, -2, 11,
            0, 1, -2, 11, 0, 2, -11, 0, -1, 2, -11, 0, -1, 2, -11, 0, 10, 0,
        ],
    ),
    (
        "one bit chooses",
        &[
            Node::Input(0),
            BIT_0,
            BIT_1,
            BIT_2,
            Node::Ite {
                condition: 1,
                yes: 2,
                no: 3,
            },
        ],
        &[
            1, 0, -2, -3, 10, 0, -2, 3, -10, 0, 2, -4, 10, 0, 2, 4, -10, 0, 10, 0,
        ],
    ),
    (
        "one bit is below another",
        &[
            Node::Input(0),
            BIT_0,
            BIT_1,
            Node::Compare(Comparison::Ult, 1, 2),
        ],
        &[
            1, 0, 1, 2, -3, -10, 0, -1, 2, -3, 10, 0, 1, 2, 3, 10, 0, -1, 2, 3, -10, 0, 1, -2, -3,
            10, 0, -1, -2, -3, -10, 0, 1, -2, 3, -10, 0, -1, -2, 3, 10, 0, -2, 3, 11, 0, -1, -2,
            11, 0, -1, 3, 11, 0, 2, -3, -11, 0, 1, 2, -11, 0, 1, -3, -11, 0, -11, 0,
        ],
    ),
    (
        "two bits are shifted",
        &[
            Node::Input(0),
            BITS_0_TO_1,
            BITS_2_TO_3,
            Node::Binary(BinaryOp::Shl, 1, 2),
            Node::Extract {
                high: 1,
                low: 1,
                operand: 3,
            },
        ],
        &[
            1, 0, 1, -4, 10, 0, -1, -4, -10, 0, -2, 4, 10, 0, 2, 4, -10, 0, -2, -4, 11, 0, 2, -4,
            -11, 0, -3, 4, 11, 0, 3, 4, -11, 0, 1, -12, 0, -5, -12, 0, -1, 5, 12, 0, 1, 12, 13, 0,
            -1, 12, -13, 0, -10, -12, 13, 0, 10, -12, -13, 0, 1, 12, 14, 0, -1, 12, -14, 0, -11,
            -12, 14, 0, 11, -12, -14, 0, 14, 0,
        ],
    ),
];

#[test]
fn clauses_are_as_by_hand(rt: HostRuntime) -> Result<(), Fail> {
    for (what, nodes, text) in EXAMPLES {
        let encoding = encoded(&rt, rt.alloc(), nodes)?;
        assert!(rt; is(encoding.formula(), text), "{what}");
    }
    Ok(())
}

// What is left of a clause under these values: its only literal without one, where no other is true.
fn forced(values: &[Option<bool>], clause: &[Lit]) -> Option<Lit> {
    let mut open = None;
    for literal in clause {
        match values.get(literal.variable() as usize) {
            Some(Some(value)) if *value != literal.is_positive() => {}
            Some(None) if open.is_none() => open = Some(*literal),
            _ => return None,
        }
    }
    open
}

// One round of unit propagation: what each clause in turn forces.
fn propagate(values: &mut [Option<bool>], formula: &Cnf) {
    let clauses = formula.clauses();
    for place in 0..clauses.len() {
        if let Some(literal) = forced(values, clauses.at(place)) {
            if let Some(slot) = values.get_mut(literal.variable() as usize) {
                *slot = Some(literal.is_positive());
            }
        }
    }
}

// A valuation of variables 1 to 2000, by so many rounds of unit propagation. What has no value then is false.
fn propagated(alloc: Global, formula: &Cnf, rounds: usize) -> Result<Val, NoMemory> {
    let mut values: Vec<Option<bool>> = vec![in alloc; None; 2000]?;
    for _round in 0..rounds {
        propagate(&mut values, formula);
    }
    let plain: Vec<bool> = values.iter().map(|v| *v == Some(true)).collect(alloc)?;
    Ok(Val::new(plain))
}

fn byte(value: u64) -> Node {
    Node::Num { width: 8, value }
}

// Whether what one round forces satisfies these clauses.
fn is_forced(alloc: Global, formula: &Cnf) -> Result<bool, NoMemory> {
    let values = propagated(alloc, formula, 1)?;
    Ok(values.satisfies(formula))
}

// Whether the last of these terms, which rest on no input byte, is 1.
fn is_one(rt: &impl Abort, alloc: Global, nodes: &[Node]) -> Result<bool, NoMemory> {
    let encoding = encoded(rt, alloc, nodes)?;
    is_forced(alloc, encoding.formula())
}

/// Two bytes, a term over these in the places 0 and 1, and the byte that it is worth.
type Row = (u64, u64, Node, u64);

const OPERATIONS: &[Row] = &[
    (200, 100, Node::Binary(BinaryOp::Add, 0, 1), 44),
    (3, 5, Node::Binary(BinaryOp::Sub, 0, 1), 254),
    (13, 21, Node::Binary(BinaryOp::Mul, 0, 1), 17),
    (200, 7, Node::Binary(BinaryOp::Udiv, 0, 1), 28),
    (5, 0, Node::Binary(BinaryOp::Udiv, 0, 1), 255),
    (200, 7, Node::Binary(BinaryOp::Urem, 0, 1), 4),
    (5, 0, Node::Binary(BinaryOp::Urem, 0, 1), 5),
    (12, 10, Node::Binary(BinaryOp::And, 0, 1), 8),
    (12, 10, Node::Binary(BinaryOp::Or, 0, 1), 14),
    (12, 10, Node::Binary(BinaryOp::Xor, 0, 1), 6),
    (3, 7, Node::Binary(BinaryOp::Shl, 0, 1), 128),
    (1, 8, Node::Binary(BinaryOp::Shl, 0, 1), 0),
    (200, 3, Node::Binary(BinaryOp::Lshr, 0, 1), 25),
    (200, 3, Node::Binary(BinaryOp::Ashr, 0, 1), 249),
    (128, 200, Node::Binary(BinaryOp::Ashr, 0, 1), 255),
    (200, 0, Node::Neg(0), 56),
    (200, 0, Node::Not(0), 55),
];

// Whether a row's term is worth this number.
fn comes_to(rt: &impl Abort, alloc: Global, row: &Row, number: u64) -> Result<bool, NoMemory> {
    let (left, right, term, _) = *row;
    let same = Node::Compare(Comparison::Eq, 2, 3);
    is_one(
        rt,
        alloc,
        &[byte(left), byte(right), term, byte(number), same],
    )
}

// Each row's term is worth its number, and not another.
#[test]
fn operations_are_the_standards(rt: HostRuntime) -> Result<(), Fail> {
    for row in OPERATIONS {
        let (left, right, term, want) = *row;
        let alone = comes_to(&rt, rt.alloc(), row, want)?
            && !comes_to(&rt, rt.alloc(), row, want ^ 1)?;
        assert!(rt; alone, "{term:?} of {left} and {right}");
    }
    Ok(())
}

/// A test of two bytes, and whether they pass it.
const TESTS: &[(Comparison, u64, u64, bool)] = &[
    (Comparison::Ult, 200, 5, false),
    (Comparison::Ult, 5, 200, true),
    (Comparison::Slt, 200, 5, true),
    (Comparison::Slt, 5, 5, false),
];

#[test]
fn comparisons_are_the_standards(rt: HostRuntime) -> Result<(), Fail> {
    for (op, left, right, want) in TESTS {
        let nodes = [byte(*left), byte(*right), Node::Compare(*op, 0, 1)];
        let passes = is_one(&rt, rt.alloc(), &nodes)?;
        assert_eq!(rt; passes, *want, "{op:?} of {left} and {right}");
    }
    Ok(())
}

// Whether the valuation that these clauses force, which satisfies them, means these bytes.
fn mean(
    rt: &impl Abort,
    alloc: Global,
    encoding: &Encoding,
    want: &[u8],
) -> Result<bool, NoMemory> {
    let values = propagated(alloc, encoding.formula(), 20)?;
    assert!(rt; values.satisfies(encoding.formula()));
    let bytes = encoding.bytes(alloc, &values)?;
    Ok(bytes.as_slice() == want)
}

#[test]
fn a_valuation_means_its_bytes(rt: HostRuntime) -> Result<(), Fail> {
    let nodes = [
        Node::Input(0),
        byte(0x41),
        Node::Compare(Comparison::Eq, 0, 1),
    ];
    let encoding = encoded(&rt, rt.alloc(), &nodes)?;
    assert!(rt; mean(&rt, rt.alloc(), &encoding, &[0x41])?);
    Ok(())
}
