//! What the definitions say of themselves.

ghost use Rattle.std.specs.Prelude.{◌≡◌, ◌≤◌, ◌<◌, ◌/◌, ◌↔◌, ℕ, List, IsTrue};
ghost use Rattle.std.specs.FinMap as map;
ghost use Rattle.elf_load.specs.Areas.{end_of, share_address, touches};
ghost use Rattle.elf_load.specs.Images.{Image, IsStackPage, Loads};
ghost use Rattle.elf_load.specs.declared.header.ProgramHeader.{ProgramHeader};

/// A file loads to one image.
pub fn a_file_loads_to_one_image()
    ensures { (bytes : List ℕ) (one other : Image) → Loads bytes one → Loads bytes other
        → one ≡ other }
{}

/// Areas of memory share an address where there is one in both.
pub fn areas_share_an_address()
    ensures { (s t : ProgramHeader) → 0 < s.memory_size → 0 < t.memory_size →
        (IsTrue (share_address s t)
        ↔ ((x : ℕ) × (s.address ≤ x) × (x < end_of s) × (t.address ≤ x) × (x < end_of t))) }
{}

/// An area touches a page where one of its addresses is on it.
pub fn an_area_touches_a_page()
    ensures { (s : ProgramHeader) (page : ℕ) → 0 < s.memory_size →
        (IsTrue (touches s page)
        ↔ ((x : ℕ) × (s.address ≤ x) × (x < end_of s) × (x / 256 ≡ page))) }
{}

/// The stack's pages are mapped, to be read and written, and are zeros.
pub fn the_stack_is_mapped()
    ensures { (bytes : List ℕ) (image : Image) (page : ℕ) → Loads bytes image → 0x7FFF00 ≤ page
        → page ≤ 0x7FFFFF →
        IsStackPage (map.get image.pages page) }
{}
