//! What the instructions of one format tell apart: operations, widths and tests, each by its funct3 or funct7
//! (RISC-V unprivileged manual, "RV32/64G Instruction Set Listings").

ghost use Rattle.std.specs.Prelude.{◌≡◌};
ghost use Rattle.rv_decode.specs.Ops.{branch_test, load_width, store_width, immediate_op, shift_op, base_op, alternate_op, multiply_op, register_op};

/// What a branch tests of `rs1` and `rs2`.
#[derive(Clone, Copy, Debug, PartialEq, Eq)]
pub enum Test {
    /// They are equal.
    Beq,
    /// They differ.
    Bne,
    /// `rs1` is below `rs2` as a signed number.
    Blt,
    /// `rs1` is not below `rs2` as a signed number.
    Bge,
    /// `rs1` is below `rs2` as an unsigned number.
    Bltu,
    /// `rs1` is not below `rs2` as an unsigned number.
    Bgeu,
}

/// How much a load reads, and how it fills a register.
#[derive(Clone, Copy, Debug, PartialEq, Eq)]
pub enum LoadWidth {
    /// A byte, sign-extended.
    Lb,
    /// Two bytes, sign-extended.
    Lh,
    /// Four bytes.
    Lw,
    /// A byte, zero-extended.
    Lbu,
    /// Two bytes, zero-extended.
    Lhu,
}

/// How much of `rs2` a store writes.
#[derive(Clone, Copy, Debug, PartialEq, Eq)]
pub enum StoreWidth {
    /// Its lowest byte.
    Sb,
    /// Its lowest two bytes.
    Sh,
    /// All four bytes.
    Sw,
}

/// An operation on a register and an immediate.
#[derive(Clone, Copy, Debug, PartialEq, Eq)]
pub enum ImmediateOp {
    Addi,
    /// 1 where `rs1` is below the immediate as a signed number, else 0.
    Slti,
    /// 1 where `rs1` is below the immediate as an unsigned number, else 0.
    Sltiu,
    Xori,
    Ori,
    Andi,
}

/// A shift of a register by a fixed amount.
#[derive(Clone, Copy, Debug, PartialEq, Eq)]
pub enum ShiftOp {
    Slli,
    /// Shifts zeros in.
    Srli,
    /// Shifts copies of the sign in.
    Srai,
}

/// An operation on two registers.
#[derive(Clone, Copy, Debug, PartialEq, Eq)]
pub enum RegisterOp {
    Add,
    Sub,
    /// Shifts left by the lowest five bits of `rs2`.
    Sll,
    /// 1 where `rs1` is below `rs2` as a signed number, else 0.
    Slt,
    /// 1 where `rs1` is below `rs2` as an unsigned number, else 0.
    Sltu,
    Xor,
    /// Shifts right by the lowest five bits of `rs2`, with zeros.
    Srl,
    /// Shifts right by the lowest five bits of `rs2`, with copies of the sign.
    Sra,
    Or,
    And,
    /// The lowest 32 bits of the product.
    Mul,
    /// The highest 32 bits of the product of two signed numbers.
    Mulh,
    /// The highest 32 bits of the product of a signed `rs1` and an unsigned `rs2`.
    Mulhsu,
    /// The highest 32 bits of the product of two unsigned numbers.
    Mulhu,
    Div,
    Divu,
    Rem,
    Remu,
}

/// What the branch of this funct3 tests.
pub(crate) fn branch_test(funct3: u32) -> Option<Test>
    ensures { result ≡ branch_test funct3 }
{
    match funct3 {
        0b000 => Some(Test::Beq),
        0b001 => Some(Test::Bne),
        0b100 => Some(Test::Blt),
        0b101 => Some(Test::Bge),
        0b110 => Some(Test::Bltu),
        0b111 => Some(Test::Bgeu),
        _ => None,
    }
}

/// What the load of this funct3 reads.
pub(crate) fn load_width(funct3: u32) -> Option<LoadWidth>
    ensures { result ≡ load_width funct3 }
{
    match funct3 {
        0b000 => Some(LoadWidth::Lb),
        0b001 => Some(LoadWidth::Lh),
        0b010 => Some(LoadWidth::Lw),
        0b100 => Some(LoadWidth::Lbu),
        0b101 => Some(LoadWidth::Lhu),
        _ => None,
    }
}

/// What the store of this funct3 writes.
pub(crate) fn store_width(funct3: u32) -> Option<StoreWidth>
    ensures { result ≡ store_width funct3 }
{
    match funct3 {
        0b000 => Some(StoreWidth::Sb),
        0b001 => Some(StoreWidth::Sh),
        0b010 => Some(StoreWidth::Sw),
        _ => None,
    }
}

/// The operation of this funct3 on a register and an immediate.
pub(crate) fn immediate_op(funct3: u32) -> Option<ImmediateOp>
    ensures { result ≡ immediate_op funct3 }
{
    match funct3 {
        0b000 => Some(ImmediateOp::Addi),
        0b010 => Some(ImmediateOp::Slti),
        0b011 => Some(ImmediateOp::Sltiu),
        0b100 => Some(ImmediateOp::Xori),
        0b110 => Some(ImmediateOp::Ori),
        0b111 => Some(ImmediateOp::Andi),
        _ => None,
    }
}

/// The shift by a fixed amount of this funct3 and funct7.
pub(crate) fn shift_op(funct3: u32, funct7: u32) -> Option<ShiftOp>
    ensures { result ≡ shift_op funct3 funct7 }
{
    match (funct3, funct7) {
        (0b001, 0b000_0000) => Some(ShiftOp::Slli),
        (0b101, 0b000_0000) => Some(ShiftOp::Srli),
        (0b101, 0b010_0000) => Some(ShiftOp::Srai),
        _ => None,
    }
}

/// The operation on two registers of this funct3, under the funct7 0000000.
fn base_op(funct3: u32) -> Option<RegisterOp>
    ensures { result ≡ base_op funct3 }
{
    match funct3 {
        0b000 => Some(RegisterOp::Add),
        0b001 => Some(RegisterOp::Sll),
        0b010 => Some(RegisterOp::Slt),
        0b011 => Some(RegisterOp::Sltu),
        0b100 => Some(RegisterOp::Xor),
        0b101 => Some(RegisterOp::Srl),
        0b110 => Some(RegisterOp::Or),
        0b111 => Some(RegisterOp::And),
        _ => None,
    }
}

/// The operation on two registers of this funct3, under the funct7 0100000.
fn alternate_op(funct3: u32) -> Option<RegisterOp>
    ensures { result ≡ alternate_op funct3 }
{
    match funct3 {
        0b000 => Some(RegisterOp::Sub),
        0b101 => Some(RegisterOp::Sra),
        _ => None,
    }
}

/// The multiplication or division of this funct3, under the funct7 0000001.
fn multiply_op(funct3: u32) -> Option<RegisterOp>
    ensures { result ≡ multiply_op funct3 }
{
    match funct3 {
        0b000 => Some(RegisterOp::Mul),
        0b001 => Some(RegisterOp::Mulh),
        0b010 => Some(RegisterOp::Mulhsu),
        0b011 => Some(RegisterOp::Mulhu),
        0b100 => Some(RegisterOp::Div),
        0b101 => Some(RegisterOp::Divu),
        0b110 => Some(RegisterOp::Rem),
        0b111 => Some(RegisterOp::Remu),
        _ => None,
    }
}

/// The operation on two registers of this funct3 and funct7.
pub(crate) fn register_op(funct3: u32, funct7: u32) -> Option<RegisterOp>
    ensures { result ≡ register_op funct3 funct7 }
{
    match funct7 {
        0b000_0000 => base_op(funct3),
        0b010_0000 => alternate_op(funct3),
        0b000_0001 => multiply_op(funct3),
        _ => None,
    }
}
