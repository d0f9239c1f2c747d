//! Reading two files, one behind the other: a program's, and one that goes with it.

ghost use Rattle.std.specs.Prelude.{◌≡◌, [], ◌∷◌, IfOk, OnOk, OnErr};
ghost use Rattle.tool_io.specs.Causes.{HasCause};
ghost use Rattle.tool_io.specs.Told.{Gives, after};
ghost use Rattle.tool_top.specs.Plan.{OnlyReads, most_bytes};

use crate::plan::MOST_BYTES;
use byte_list::Bytes;
use tool_io::{Fault, Files};

/// The bytes of the program's file, and then those of the other, of which at most so many are read.
pub(crate) fn read_both<F: Files>(
    program: &str,
    other: &str,
    most: usize,
    files: &mut F,
) -> Result<(Bytes, Bytes), Fault>
    ensures told { OnOk result ((F.seen files.new).told
        ≡ after (F.seen files.old).told
        (record { names = program.now ∷ other.now ∷ []; puts = []; said = [] })) }
    ensures program { IfOk result (λ both. Gives
        (F.seen files.old).told program.now most_bytes both.0) }
    ensures other { IfOk result (λ both. Gives
        (F.seen files.old).told other.now most both.1) }
    ensures err { OnErr result (OnlyReads (F.seen files.old) (F.seen files.new)
        (program.now ∷ other.now ∷ [])) }
    ensures cause { HasCause (F.seen files.old).reads (F.seen files.new).reads result }
    ensures writes { (F.seen files.new).writes ≡ (F.seen files.old).writes }
{
    let bytes = files.read(program, MOST_BYTES)?;
    let text = files.read(other, most)?;
    Ok((bytes, text))
}
