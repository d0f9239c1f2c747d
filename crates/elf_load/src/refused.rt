//! Why a file is refused.

ghost use Rattle.std.specs.Prelude.{◌≡◌};

use thiserror::Error;

/// What keeps a file from being loaded. Of several the first is answered.
#[derive(Clone, Copy, Debug, PartialEq, Eq, Error)]
pub enum Refused {
    #[error("the file has more than a mebibyte")]
    TooBig,
    #[error("the file has no whole header")]
    Short,
    #[error("the file is no ELF file")]
    Magic,
    #[error("the file is not of 32 bits")]
    Class,
    #[error("the file is not little endian")]
    ByteOrder,
    #[error("the version is not 1")]
    Version,
    #[error("the file is no executable program")]
    FileType,
    #[error("the machine is not RISC-V")]
    Machine,
    #[error("the program has compressed instructions or half of the registers")]
    Flags,
    #[error("a header's size is not the standard's")]
    HeaderSize,
    #[error("the program headers pass the end of the file")]
    HeadersPastEnd,
    #[error("the program is linked when it runs")]
    Dynamic,
    #[error("a segment has more bytes in the file than in memory")]
    FileOverMemory,
    #[error("a segment's bytes pass the end of the file")]
    BytesPastEnd,
    #[error("a segment passes the end of memory or touches the stack")]
    AddressRange,
    #[error("two segments share an address")]
    Overlap,
    #[error("the segments touch too many pages")]
    TooManyPages,
    #[error("the program has no segment")]
    Nothing,
}

impl Refused {
    ghost use Rattle.elf_load.specs.Names.{refused_number, refused_name};

    /// Its place in the order in which refusals are answered, from 1.
    pub fn number(self) -> u8
        ensures { result ≡ refused_number self }
    {
        match self {
            Refused::TooBig => 1,
            Refused::Short => 2,
            Refused::Magic => 3,
            Refused::Class => 4,
            Refused::ByteOrder => 5,
            Refused::Version => 6,
            Refused::FileType => 7,
            Refused::Machine => 8,
            Refused::Flags => 9,
            Refused::HeaderSize => 10,
            Refused::HeadersPastEnd => 11,
            Refused::Dynamic => 12,
            Refused::FileOverMemory => 13,
            Refused::BytesPastEnd => 14,
            Refused::AddressRange => 15,
            Refused::Overlap => 16,
            Refused::TooManyPages => 17,
            Refused::Nothing => 18,
        }
    }

    /// What it is called.
    pub fn name(self) -> &'static str
        ensures { result.now ≡ refused_name self }
    {
        match self {
            Refused::TooBig => "TooBig",
            Refused::Short => "Short",
            Refused::Magic => "Magic",
            Refused::Class => "Class",
            Refused::ByteOrder => "ByteOrder",
            Refused::Version => "Version",
            Refused::FileType => "FileType",
            Refused::Machine => "Machine",
            Refused::Flags => "Flags",
            Refused::HeaderSize => "HeaderSize",
            Refused::HeadersPastEnd => "HeadersPastEnd",
            Refused::Dynamic => "Dynamic",
            Refused::FileOverMemory => "FileOverMemory",
            Refused::BytesPastEnd => "BytesPastEnd",
            Refused::AddressRange => "AddressRange",
            Refused::Overlap => "Overlap",
            Refused::TooManyPages => "TooManyPages",
            Refused::Nothing => "Nothing",
        }
    }
}
