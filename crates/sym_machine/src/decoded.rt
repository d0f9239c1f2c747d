//! Instructions that were decoded lately, so that a loop decodes each of its words once.
//!
//! An address has one of 64 places. The instruction that was decoded last of all that share a place is kept there with the word that
//! it was. Where another word is fetched, by whatever way it came there, that one is decoded.

ghost use Rattle.std.specs.Prelude.{◌≡◌, IfSome};
ghost use Rattle.rv_decode.specs.Instructions as instructions;
ghost use Rattle.rv_decode.specs.Instructions.{ShiftsBelow32};
ghost use Rattle.sym_machine.specs.Shifts.{shifts_prop};

use rv_decode::{Instr, decode};

// How many places there are.
const PLACES: u32 = 64;

// A word, and the instruction that it is.
#[derive(Clone, Copy, Debug)]
struct Entry {
    word: u32,
    instr: Option<Instr>,
    ghost is: { instr ≡ instructions.instr word },
    ghost amount: { IfSome instr ShiftsBelow32 } by { shifts_prop instr },
}

impl Entry {
    fn of(word: u32) -> Entry
        ensures { result.word ≡ word }
    {
        Entry {
            word,
            instr: decode(word),
        }
    }
}

/// Instructions that were decoded lately.
#[derive(Debug, Drop)]
pub(crate) struct Decoded {
    entries: [Entry; 64],
}

impl Decoded {
    /// None but the one of the word 0, at each place.
    pub(crate) fn new() -> Decoded {
        Decoded {
            entries: [Entry::of(0); 64],
        }
    }

    /// The instruction that the word at an address is, or `None` where it is none.
    pub(crate) fn decode(&mut self, address: u32, word: u32) -> Option<Instr>
        ensures value { result ≡ instructions.instr word }
        ensures amount { IfSome result ShiftsBelow32 }
    {
        let entry = &mut self.entries[(address / 4 % PLACES) as usize];
        if entry.word != word {
            *entry = Entry::of(word);
        }
        entry.instr
    }
}
