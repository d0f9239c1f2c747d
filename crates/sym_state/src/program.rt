//! What is run symbolically.

ghost use Rattle.std.specs.Prelude.{◌≡◌};
ghost use Rattle.sym_state.specs.Programs.{IsFitted};

use elf_load::{Image, Regions};
use std::marker::Model;

/// A program, and where its input bytes stand: on mapped pages of it, each at an address of its own.
#[derive(Debug)]
pub struct Program {
    image: Image,
    regions: Regions,
}

impl Drop for Program {
    fn drop(self) {
        let Self {
            image: _image,
            regions: _regions,
        } = self;
    }
}

impl Model for Program {
    ghost use Rattle.sym_state.specs.Programs as spec;

    ghost Value = { spec.Program };

    ghost coded = { spec.program_code };

    ghost view = { λ p. record { image = p.image; regions = p.regions } };

    ghost invariant = { λ p. spec.IsFitted (record { image = p.image; regions = p.regions }) };
}

impl Program {
    /// The program of this image, whose input bytes stand in these regions.
    pub fn new(image: Image, regions: Regions) -> Program
        requires fitted { IsFitted (record { image = image; regions = regions }) }
        ensures { result ≡ record { image = image; regions = regions } }
    {
        Program { image, regions }
    }

    /// Its memory as it begins.
    pub fn image(&self) -> &Image
        ensures value { result.now ≡ self.now.image }
        ensures fitted { IsFitted self.now }
    {
        &self.image
    }

    /// Where its input bytes stand.
    pub fn regions(&self) -> &Regions
        ensures value { result.now ≡ self.now.regions }
        ensures fitted { IsFitted self.now }
    {
        &self.regions
    }
}
