//! Paths, as tests write them.

ghost use Rattle.std.specs.Prelude.{◌≡◌, ◌<◌, ◌≤◌, IfOk, IfSome, MatchOption, None, Some, drop, length, option_map};
ghost use Rattle.elf_load.specs.Regions.{put_first};
ghost use Rattle.test_files.specs.Forms.{branch_of, path_of};

use rv_decode::PathStep;
use std::alloc::{AllocError as NoMemory, Global};
use text_parts::hex_number;

/// What a branch does: T or N.
fn read_branch(letter: u8) -> Option<PathStep>
    ensures { result ≡ branch_of letter }
{
    match letter {
        b'T' => Some(PathStep::Taken),
        b'N' => Some(PathStep::NotTaken),
        _ => None,
    }
}

/// Reads the first entry of a path, and how many bytes it takes: T, N, or an @ and the eight digits
/// of a target.
fn read_step(text: &[u8]) -> Option<(PathStep, usize)>
    requires { 0 < length text.now }
    ensures some { IfSome result (λ step. 0 < step.1) }
    ensures within { IfSome result (λ step. step.1 ≤ length text.now) }
    ensures cases { MatchOption result (path_of text.now ≡ None)
        (λ step. path_of text.now ≡ put_first (Some step.0) (path_of (drop step.1 text.now))) }
{
    if text[0] != b'@' || text.len() < 9 {
        return Some((read_branch(text[0])?, 1));
    }
    let target = hex_number(&text[1..9])?;
    Some((PathStep::Target(target), 9))
}

/// Reads the entries of a path, with nothing between.
pub(crate) fn read_path(alloc: Global, text: &[u8]) -> Result<Option<Vec<PathStep>>, NoMemory>
    ensures { IfOk result (λ found. option_map (λ path. path.items) found ≡ path_of text.now) }
{
    let mut path = Vec::new(alloc);
    let mut rest = text;
    while !rest.is_empty() {
        let Some((step, len)) = read_step(rest) else {
            return Ok(None);
        };
        path.push(step)?;
        rest = &rest[len..];
    }
    Ok(Some(path))
}
