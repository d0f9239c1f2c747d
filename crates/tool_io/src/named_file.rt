//! A file that has a name.

ghost use Rattle.std.specs.Prelude.{◌≡◌, string_bytes};

use byte_list::Bytes;
use std::marker::Model;

/// A file that is to be put, or was.
pub struct NamedFile {
    name: String,
    bytes: Bytes,
}

impl Drop for NamedFile {
    fn drop(self) {
        let Self {
            name: _name,
            bytes: _bytes,
        } = self;
    }
}

impl Model for NamedFile {
    ghost use Rattle.std.specs.Prelude.{string_bytes};
    ghost use Rattle.tool_io.specs.Told.{Put};

    ghost Value = { Put };

    ghost view = { λ f. record { name = string_bytes f.name; bytes = f.bytes } };
}

impl NamedFile {
    /// A file of this name that holds these bytes.
    pub fn new(name: String, bytes: Bytes) -> NamedFile
        ensures { result ≡ record { name = string_bytes name; bytes = bytes } }
    {
        NamedFile { name, bytes }
    }

    /// Its name, folders included.
    pub fn name(&self) -> &str
        ensures { result.now ≡ self.now.name }
    {
        self.name.as_str()
    }

    /// What it holds.
    pub fn bytes(&self) -> &[u8]
        ensures { result.now ≡ self.now.bytes }
    {
        self.bytes.as_slice()
    }
}
