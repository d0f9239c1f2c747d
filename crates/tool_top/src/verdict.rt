//! How a run of the tool ends.

ghost use Rattle.std.specs.Prelude.{◌≡◌};

/// What a run is to answer, where nothing stops it.
#[derive(Clone, Copy, Debug, PartialEq, Eq)]
pub enum Verdict {
    Done,
    /// A run is not as its test says, or leaves aren't as their certificate says.
    Differs,
    /// The words ask for nothing that the tool does.
    NoJob,
    /// The file is that of no program.
    Refused,
    /// There is a program, but the input that is asked, or that a test has, doesn't fit it.
    Unfit,
    /// A name could not be read.
    ReadFault,
    /// A text is no test.
    TestRefused,
}

/// How a run ended.
#[derive(Clone, Copy, Debug, PartialEq, Eq)]
pub enum Ending {
    Planned(Verdict),
    /// A file could not be put, or the line of a run that is done not said.
    WriteFault,
    NoMemory,
}

impl Ending {
    ghost use Rattle.tool_top.specs.Answer.{status_of};

    /// The exit status.
    pub fn status(self) -> u8
        ensures { result ≡ status_of self }
    {
        match self {
            Ending::Planned(Verdict::Done) => 0,
            Ending::Planned(Verdict::Differs) => 1,
            Ending::Planned(Verdict::NoJob) => 2,
            Ending::Planned(Verdict::Refused) => 3,
            Ending::Planned(Verdict::Unfit) => 4,
            Ending::Planned(Verdict::ReadFault) => 5,
            Ending::Planned(Verdict::TestRefused) => 7,
            Ending::WriteFault => 6,
            Ending::NoMemory => 8,
        }
    }
}
