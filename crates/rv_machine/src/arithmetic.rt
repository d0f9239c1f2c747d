//! What the instructions compute: RISC-V unprivileged manual, "Integer Computational Instructions" of RV32I, and
//! "M Extension for Integer Multiplication and Division".

ghost use Rattle.std.specs.Prelude.{◌≡◌, ◌<◌, ◌*◌, ◌%◌, ◌^◌};
ghost use Rattle.rv_decode.specs.Fields as fields;
ghost use Rattle.rv_spec.specs.Arithmetic as arithmetic;

use rv_decode::{ImmediateOp, RegisterOp, ShiftOp, Test};

/// The sign bit of a word.
const SIGN: u32 = 0x8000_0000;

/// The upper half of a double word, all ones: what stands above a negative word in 64 bits.
const UPPER_ONES: u64 = 0xFFFF_FFFF_0000_0000;

#[tactic(auto, unfolding(rv_spec::specs::Arithmetic::is_negative_word))]
fn is_negative(a: u32) -> bool
    ensures { result ≡ arithmetic.is_negative_word a }
{
    a >= SIGN
}

/// Compares signed numbers. With the sign turned over they are in the order of unsigned ones.
#[tactic(auto, unfolding(rv_spec::specs::Arithmetic::is_less_signed))]
fn is_less_signed(a: u32, b: u32) -> bool
    ensures { result ≡ arithmetic.is_less_signed a b }
{
    a.wrapping_add(SIGN) < b.wrapping_add(SIGN)
}

fn one_where(test: bool) -> u32
    ensures { result ≡ arithmetic.one_where test }
{
    u32::from(test)
}

/// The difference modulo 2^32.
#[tactic(auto, unfolding(rv_spec::specs::Arithmetic::difference32))]
fn difference(a: u32, b: u32) -> u32
    ensures { result ≡ arithmetic.difference32 a b }
{
    a.wrapping_sub(b)
}

#[tactic(auto, unfolding(rv_spec::specs::Arithmetic::shifted_left))]
fn shifted_left(a: u32, amount: u32) -> u32
    requires { amount < 32 }
    ensures { result ≡ arithmetic.shifted_left a amount }
{
    a << amount
}

#[tactic(auto, unfolding(rv_spec::specs::Arithmetic::shifted_right))]
fn shifted_right(a: u32, amount: u32) -> u32
    requires { amount < 32 }
    ensures { result ≡ arithmetic.shifted_right a amount }
{
    a >> amount
}

/// Copies of the sign are shifted in.
#[tactic(auto, unfolding(rv_spec::specs::Arithmetic::shifted_right_signed))]
fn shifted_right_signed(a: u32, amount: u32) -> u32
    requires { amount < 32 }
    ensures { result ≡ arithmetic.shifted_right_signed a amount }
{
    if is_negative(a) {
        return u32::MAX - ((u32::MAX - a) >> amount);
    }
    a >> amount
}

/// A signed number in 64 bits.
#[tactic(auto, unfolding(rv_spec::specs::Arithmetic::wide_signed))]
fn wide_signed(a: u32) -> u64
    ensures { result ≡ arithmetic.wide_signed a }
{
    if is_negative(a) {
        return u64::from(a) + UPPER_ONES;
    }
    u64::from(a)
}

/// The upper half of a product modulo 2^64.
#[tactic(auto, unfolding(rv_spec::specs::Arithmetic::upper_half))]
fn upper_half(a: u64, b: u64) -> u32
    ensures { result ≡ arithmetic.upper_half (a * b) }
{
    (a.wrapping_mul(b) >> 32) as u32
}

/// How far a signed number is from 0.
#[tactic(auto, unfolding(rv_spec::specs::Arithmetic::magnitude, rv_spec::specs::Arithmetic::is_negative_word))]
fn magnitude(a: u32) -> u32
    ensures value { result ≡ arithmetic.magnitude a }
    ensures not_zero { 0 < a → 0 < result }
{
    if is_negative(a) {
        return u32::MAX - a + 1;
    }
    a
}

#[tactic(auto, unfolding(rv_spec::specs::Arithmetic::with_sign))]
fn with_sign(negative: bool, n: u32) -> u32
    ensures { result ≡ arithmetic.with_sign negative n }
{
    if negative {
        return 0u32.wrapping_sub(n);
    }
    n
}

fn differ(a: bool, b: bool) -> bool
    ensures { result ≡ arithmetic.differ a b }
{
    a != b
}

/// Rounds towards zero; all ones where `b` is 0.
#[tactic(auto, unfolding(rv_spec::specs::Arithmetic::quotient_signed))]
fn quotient_signed(a: u32, b: u32) -> u32
    ensures { result ≡ arithmetic.quotient_signed a b }
{
    if b == 0 {
        return u32::MAX;
    }
    with_sign(
        differ(is_negative(a), is_negative(b)),
        magnitude(a) / magnitude(b),
    )
}

/// Has the sign of `a`; `a` where `b` is 0.
#[tactic(auto, unfolding(rv_spec::specs::Arithmetic::remainder_signed))]
fn remainder_signed(a: u32, b: u32) -> u32
    ensures { result ≡ arithmetic.remainder_signed a b }
{
    if b == 0 {
        return a;
    }
    with_sign(is_negative(a), magnitude(a) % magnitude(b))
}

/// All ones where `b` is 0.
#[tactic(auto, unfolding(rv_spec::specs::Arithmetic::quotient))]
fn quotient(a: u32, b: u32) -> u32
    ensures { result ≡ arithmetic.quotient a b }
{
    if b == 0 {
        return u32::MAX;
    }
    a / b
}

/// `a` where `b` is 0.
#[tactic(auto, unfolding(rv_spec::specs::Arithmetic::remainder))]
fn remainder(a: u32, b: u32) -> u32
    ensures { result ≡ arithmetic.remainder a b }
{
    if b == 0 {
        return a;
    }
    a % b
}

/// A number of 8 bits in two's complement, in 32.
#[tactic(auto, unfolding(rv_decode::specs::Fields::sign_extended))]
pub fn extended_byte(byte: u8) -> u32
    ensures { result ≡ fields.sign_extended 8 byte }
{
    if byte < 0x80 {
        return u32::from(byte);
    }
    u32::from(byte) + 0xFFFF_FF00
}

/// A number of 16 bits in two's complement, in 32.
#[tactic(auto, unfolding(rv_decode::specs::Fields::sign_extended))]
pub fn extended_half(half: u32) -> u32
    requires { half < 2 ^ 16 }
    ensures { result ≡ fields.sign_extended 16 half }
{
    if half < 0x8000 {
        return half;
    }
    half + 0xFFFF_0000
}

/// Whether two numbers pass the test of a conditional branch.
pub fn passes(test: Test, a: u32, b: u32) -> bool
    ensures { result ≡ arithmetic.passes test a b }
{
    match test {
        Test::Beq => a == b,
        Test::Bne => a != b,
        Test::Blt => is_less_signed(a, b),
        Test::Bge => !is_less_signed(a, b),
        Test::Bltu => a < b,
        Test::Bgeu => a >= b,
    }
}

/// What an operation makes of a number and an immediate.
pub(crate) fn with_immediate(op: ImmediateOp, a: u32, immediate: u32) -> u32
    ensures { result ≡ arithmetic.with_immediate op a immediate }
{
    match op {
        ImmediateOp::Addi => a.wrapping_add(immediate),
        ImmediateOp::Slti => one_where(is_less_signed(a, immediate)),
        ImmediateOp::Sltiu => one_where(a < immediate),
        ImmediateOp::Xori => a ^ immediate,
        ImmediateOp::Ori => a | immediate,
        ImmediateOp::Andi => a & immediate,
    }
}

/// What a shift makes of a number.
pub fn shifted(op: ShiftOp, a: u32, amount: u32) -> u32
    requires { amount < 32 }
    ensures { result ≡ arithmetic.shifted op a amount }
{
    match op {
        ShiftOp::Slli => shifted_left(a, amount),
        ShiftOp::Srli => shifted_right(a, amount),
        ShiftOp::Srai => shifted_right_signed(a, amount),
    }
}

/// What an operation makes of two numbers.
pub fn combined(op: RegisterOp, a: u32, b: u32) -> u32
    ensures { result ≡ arithmetic.combined op a b }
{
    match op {
        RegisterOp::Add => a.wrapping_add(b),
        RegisterOp::Sub => difference(a, b),
        RegisterOp::Sll => shifted_left(a, b % 32),
        RegisterOp::Slt => one_where(is_less_signed(a, b)),
        RegisterOp::Sltu => one_where(a < b),
        RegisterOp::Xor => a ^ b,
        RegisterOp::Srl => shifted_right(a, b % 32),
        RegisterOp::Sra => shifted_right_signed(a, b % 32),
        RegisterOp::Or => a | b,
        RegisterOp::And => a & b,
        RegisterOp::Mul => a.wrapping_mul(b),
        RegisterOp::Mulh => upper_half(wide_signed(a), wide_signed(b)),
        RegisterOp::Mulhsu => upper_half(wide_signed(a), u64::from(b)),
        RegisterOp::Mulhu => upper_half(u64::from(a), u64::from(b)),
        RegisterOp::Div => quotient_signed(a, b),
        RegisterOp::Divu => quotient(a, b),
        RegisterOp::Rem => remainder_signed(a, b),
        RegisterOp::Remu => remainder(a, b),
    }
}
