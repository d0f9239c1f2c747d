//! Pages of symbolic memory.

ghost use Rattle.std.specs.Prelude.{◌≡◌, ◌<◌, All, length, map as mapped, slice_get, slice_set, Some, IfOk, OnOk, OnErr};
ghost use Rattle.cow_pages.specs.SymbolicMemory.{number_bytes, page_byte, page_with};

use crate::byte::Byte;
use std::alloc::{AllocError as NoMemory, Global};
use std::marker::Model;

/// The bytes of a page.
pub(crate) const PAGE_SIZE: u32 = 256;

/// A page of 256 bytes, and what may be done on it.
#[derive(Debug)]
pub struct Page {
    flags: u8,
    content: Content,
}

impl Drop for Page {
    fn drop(self) {
        let Self {
            flags: _flags,
            content: _content,
        } = self;
    }
}

/// The bytes of a page. They are bare numbers until a term is written among them.
#[derive(Debug, Drop)]
enum Content {
    Numbers(Vec<u8>),
    Mixed(Vec<Byte>),
}

impl Model for Page {
    ghost use Rattle.std.specs.Prelude.{◌≡◌, length};
    ghost use Rattle.cow_pages.specs.SymbolicMemory as memory;

    ghost Value = { memory.SymbolicPage };

    ghost coded = { memory.symbolic_page_code };

    ghost use Rattle.cow_pages.specs.Contents.{content_bytes};

    ghost view = { λ p. record { flags = p.flags; bytes = content_bytes p.content } };

    ghost invariant = { λ p. length (content_bytes p.content) ≡ 256 };
}

/// These numbers as bytes of symbolic memory.
fn mixed(alloc: Global, numbers: &[u8]) -> Result<Vec<Byte>, NoMemory>
    ensures { IfOk result (λ bytes. bytes.items ≡ number_bytes numbers.now) }
{
    numbers
        .iter()
        .map(|number| Byte::Number(*number))
        .collect(alloc)
}

impl Content {
    ghost use Rattle.std.specs.Prelude.{◌+◌, IfSome, slice_index_or};
    ghost use Rattle.cow_pages.specs.Contents.{content_bytes};
    ghost use Rattle.cow_pages.specs.SymbolicMemory.{IsWordAt};

    /// The byte at this offset.
    fn byte(&self, offset: usize) -> Byte
        requires { offset < length (content_bytes self.now) }
        ensures { slice_get (content_bytes self.now) offset ≡ Some result }
    {
        match self {
            Content::Numbers(numbers) => Byte::Number(numbers[offset]),
            Content::Mixed(bytes) => bytes[offset],
        }
    }

    /// The four bytes from this offset on as a word, low byte first, if all bytes are bare numbers.
    fn word(&self, offset: usize) -> Option<u32>
        requires { offset + 3 < length (content_bytes self.now) }
        ensures { IfSome result (IsWordAt
            (λ at. slice_index_or (content_bytes self.now) at (Byte.Number 0)) offset) }
    {
        match self {
            Content::Numbers(numbers) => Some(
                u32::from(numbers[offset])
                    + 0x100 * u32::from(numbers[offset + 1])
                    + 0x1_0000 * u32::from(numbers[offset + 2])
                    + 0x100_0000 * u32::from(numbers[offset + 3]),
            ),
            Content::Mixed(_) => None,
        }
    }

    /// A copy of its own.
    fn copy(&self) -> Result<Content, NoMemory>
        ensures { IfOk result (λ copy. content_bytes copy ≡ content_bytes self.now) }
    {
        match self {
            Content::Numbers(numbers) => Ok(Content::Numbers(Vec::from_slice(
                *numbers.allocator(),
                numbers,
            )?)),
            Content::Mixed(bytes) => Ok(Content::Mixed(Vec::from_slice(
                *bytes.allocator(),
                bytes,
            )?)),
        }
    }

    /// Puts a byte at this offset.
    fn set(&mut self, offset: usize, byte: Byte) -> Result<(), NoMemory>
        requires { offset < length (content_bytes self.old) }
        ensures ok { OnOk result (content_bytes self.new
            ≡ slice_set (content_bytes self.old) offset byte) }
        ensures err { OnErr result (content_bytes self.new ≡ content_bytes self.old) }
    {
        match self {
            Content::Numbers(numbers) => match byte {
                Byte::Number(number) => numbers[offset] = number,
                Byte::Term(_) => {
                    let mut bytes = mixed(*numbers.allocator(), numbers)?;
                    bytes[offset] = byte;
                    *self = Content::Mixed(bytes);
                }
            },
            Content::Mixed(bytes) => bytes[offset] = byte,
        }
        Ok(())
    }
}

impl Page {
    ghost use Rattle.std.specs.Prelude.{◌%◌, IfSome};
    ghost use Rattle.cow_pages.specs.SymbolicMemory.{IsWordAt};

    /// A page of these numbers.
    pub(crate) fn of_numbers(alloc: Global, flags: u8, numbers: &[u8]) -> Result<Page, NoMemory>
        requires { length numbers.now ≡ 256 }
        ensures page { IfOk result (λ page. page
            ≡ record { flags = flags; bytes = number_bytes numbers.now }) }
        ensures small { All (λ number. number < 256) numbers.now }
    {
        Ok(Page {
            flags,
            content: Content::Numbers(Vec::from_slice(alloc, numbers)?),
        })
    }

    /// What may be done there: bit 0 to execute, bit 1 to write, bit 2 to read.
    pub fn flags(&self) -> u8
        ensures { result ≡ self.now.flags }
    {
        self.flags
    }

    /// The byte at this offset.
    pub fn byte(&self, offset: u8) -> Byte
        ensures item { slice_get self.now.bytes offset ≡ Some result }
        ensures value { result ≡ page_byte (Some self.now) offset }
    {
        self.content.byte(offset as usize)
    }

    /// The word at this offset, low byte first, if all bytes of the page are bare numbers.
    pub fn word(&self, offset: u8) -> Option<u32>
        requires aligned { offset % 4 ≡ 0 }
        ensures { IfSome result (IsWordAt (page_byte (Some self.now)) offset) }
    {
        self.content.word(offset as usize)
    }

    /// Puts a byte at this offset.
    pub(crate) fn set(&mut self, offset: u8, byte: Byte) -> Result<(), NoMemory>
        ensures ok { OnOk result (self.new ≡ page_with self.old offset byte) }
        ensures err { OnErr result (self.new ≡ self.old) }
    {
        self.content.set(offset as usize, byte)
    }

    /// A copy of its own with another byte at this offset.
    pub(crate) fn with_byte(&self, offset: u8, byte: Byte) -> Result<Page, NoMemory>
        ensures { IfOk result (λ copy. copy ≡ page_with self.now offset byte) }
    {
        let mut copy = self.clone()?;
        copy.set(offset, byte)?;
        Ok(copy)
    }
}

impl Clone for Page {
    ghost is_clone = { λ page copy. copy ≡ page };

    fn clone(&self) -> Result<Page, NoMemory> {
        Ok(Page {
            flags: self.flags,
            content: self.content.copy()?,
        })
    }
}
