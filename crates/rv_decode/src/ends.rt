//! How a run of the machine under test goes and ends.

ghost use Rattle.std.specs.Prelude.{◌≡◌};
ghost use Rattle.rv_decode.specs.Ends.{trap_name};

/// Why an instruction was not carried out.
#[derive(Clone, Copy, Debug, PartialEq, Eq)]
pub enum Trap {
    /// The word is no instruction.
    Illegal,
    /// The address of an instruction is no multiple of 4.
    FetchMisaligned,
    /// An instruction lies on a page that can't be executed.
    FetchAccess,
    LoadMisaligned,
    /// What is loaded lies on no mapped page.
    LoadAccess,
    StoreMisaligned,
    /// What is stored lies on no page that can be written.
    StoreAccess,
    /// An EBREAK.
    Break,
    /// An ECALL that is no exit and no write.
    Call,
}

impl Trap {
    /// Its name, as reports print it.
    pub fn name(self) -> &'static str
        ensures { result.now ≡ trap_name self }
    {
        match self {
            Trap::Illegal => "Illegal",
            Trap::FetchMisaligned => "FetchMisaligned",
            Trap::FetchAccess => "FetchAccess",
            Trap::LoadMisaligned => "LoadMisaligned",
            Trap::LoadAccess => "LoadAccess",
            Trap::StoreMisaligned => "StoreMisaligned",
            Trap::StoreAccess => "StoreAccess",
            Trap::Break => "Break",
            Trap::Call => "Call",
        }
    }
}

/// How a run ends.
#[derive(Clone, Copy, Debug, PartialEq, Eq)]
pub enum End {
    /// The program exits with this status.
    Exit(u8),
    Trapped(Trap),
}

/// What a conditional branch does, or where a JALR goes.
#[derive(Clone, Copy, Debug, PartialEq, Eq)]
pub enum PathStep {
    Taken,
    NotTaken,
    /// A JALR's target.
    Target(u32),
}
