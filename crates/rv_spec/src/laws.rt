//! Worked rows of what the instructions compute, at the edges that the manual names: RISC-V unprivileged manual,
//! "Integer Computational Instructions" of RV32I, and the table of "Division Operations" of the M extension.

ghost use Rattle.std.specs.Prelude.{◌≡◌, true, false};
ghost use Rattle.rv_decode.specs.declared.ops.ImmediateOp.TheVariants.{Addi, Slti, Sltiu};
ghost use Rattle.rv_decode.specs.declared.ops.RegisterOp.TheVariants.{Sub, Sra, Sll, Mul, Mulh, Mulhsu, Mulhu, Div, Divu, Rem, Remu};
ghost use Rattle.rv_decode.specs.declared.ops.ShiftOp.TheVariants.{Srai};
ghost use Rattle.rv_decode.specs.declared.ops.Test.TheVariants.{Blt, Bge, Bgeu};
ghost use Rattle.rv_spec.specs.Arithmetic.{combined, passes, shifted, with_immediate};

/// Sums and differences wrap.
pub fn sums_wrap()
    ensures sum { with_immediate Addi 0xFFFFFFFF 1 ≡ 0 }
    ensures difference { combined Sub 3 5 ≡ 0xFFFFFFFE }
{}

/// An immediate is extended by its sign, also where it is compared as a number without one.
pub fn comparisons()
    ensures below { with_immediate Sltiu 0xFFFFFFFE 0xFFFFFFFF ≡ 1 }
    ensures equal { with_immediate Sltiu 0xFFFFFFFF 0xFFFFFFFF ≡ 0 }
    ensures signed { with_immediate Slti 0xFFFFFFFF 0 ≡ 1 }
    ensures branches { (passes Blt 0x80000000 1 ≡ true) × (passes Bge 0x80000000 1 ≡ false)
        × (passes Bgeu 0x80000000 1 ≡ true) }
{}

/// Five bits say by how much, and SRA shifts in the sign.
pub fn shifts()
    ensures by_none { combined Sra 0x80000000 0 ≡ 0x80000000 }
    ensures by_most { combined Sra 0x80000000 31 ≡ 0xFFFFFFFF }
    ensures by_five_bits { (combined Sra 0x80000000 32 ≡ 0x80000000) × (combined Sll 3 33 ≡ 6) }
    ensures immediate { shifted Srai 0xFFFFFFF0 2 ≡ 0xFFFFFFFC }
{}

/// The lower and the upper halves of products.
pub fn products()
    ensures lower { combined Mul 0xFFFFFFFF 7 ≡ 0xFFFFFFF9 }
    ensures signed { (combined Mulh 0xFFFFFFFF 1 ≡ 0xFFFFFFFF)
        × (combined Mulh 0x80000000 0x80000000 ≡ 0x40000000) }
    ensures mixed { combined Mulhsu 0xFFFFFFFF 0xFFFFFFFF ≡ 0xFFFFFFFF }
    ensures unsigned { combined Mulhu 0xFFFFFFFF 0xFFFFFFFF ≡ 0xFFFFFFFE }
{}

/// Division by zero, the one overflow, and rounding towards zero.
pub fn quotients()
    ensures by_zero { (combined Div 0xFFFFFFF9 0 ≡ 0xFFFFFFFF)
        × (combined Rem 0xFFFFFFF9 0 ≡ 0xFFFFFFF9) × (combined Divu 7 0 ≡ 0xFFFFFFFF)
        × (combined Remu 7 0 ≡ 7) }
    ensures overflow { (combined Div 0x80000000 0xFFFFFFFF ≡ 0x80000000)
        × (combined Rem 0x80000000 0xFFFFFFFF ≡ 0) }
    ensures toward_zero { (combined Div 0xFFFFFFF9 2 ≡ 0xFFFFFFFD)
        × (combined Div 7 0xFFFFFFFE ≡ 0xFFFFFFFD) }
    ensures remainders { (combined Rem 0xFFFFFFF9 2 ≡ 0xFFFFFFFF)
        × (combined Rem 7 0xFFFFFFFE ≡ 1) }
{}
