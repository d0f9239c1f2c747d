//! What holds of every generated program.

ghost use Rattle.std.specs.Prelude.{◌≡◌, ◌≤◌, ℕ, None};
ghost use Rattle.elf_load.specs.Fits.{unfit};
ghost use Rattle.elf_load.specs.Images.{Image, Loads};
ghost use Rattle.elf_load.specs.Refusals.{refusal};
ghost use Rattle.prog_gen.specs.Generated.{generated_file, generated_regions};

/// Its file is that of a program.
pub fn a_generated_file_is_a_program()
    ensures { (number : ℕ) → 1 ≤ number → number ≤ 12 → refusal (generated_file number) ≡ None }
{}

/// Its input bytes fit.
pub fn a_generated_input_fits()
    ensures { (number : ℕ) (image : Image) → 1 ≤ number → number ≤ 12
        → Loads (generated_file number) image → unfit image (generated_regions number) ≡ None }
{}
