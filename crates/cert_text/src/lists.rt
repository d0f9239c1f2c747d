//! Lists as texts have them: items with nothing between, up to what ends them.

ghost use Rattle.std.specs.Prelude.{◌≡◌, IfOk, option_map};
ghost use Rattle.cert_text.specs.LineReading.{all};

use leaf_reader::behind;
use std::alloc::{AllocError as NoMemory, Global};

/// What stands in lists. Each item takes a byte or more.
pub(crate) trait Item: Drop {
    ghost use Rattle.text_parts.specs.Pieces.{Reader};

    ghost read: { Reader Self };

    /// The item that the text begins with.
    fn take(text: &[u8]) -> Option<(Self, &[u8])>
        ensures { option_map (λ found. (found.0, found.1.now)) result ≡ read text.now };
}

/// All items of a list.
pub(crate) fn take_all<'a, X: Item>(
    alloc: Global,
    text: &'a [u8],
    closing: &str,
) -> Result<Option<(Vec<X>, &'a [u8])>, NoMemory>
    ensures { IfOk result (λ found. option_map (λ found. (found.0.items, found.1.now)) found
        ≡ all X.read closing.now text.now) }
{
    let mut items = Vec::new(alloc);
    let mut rest = text;
    for _ in 0..text.len() + 1 {
        if let Some(behind_end) = behind(rest, closing) {
            return Ok(Some((items, behind_end)));
        }
        let Some((item, more)) = X::take(rest) else {
            return Ok(None);
        };
        items.push(item)?;
        rest = more;
    }
    Ok(None)
}
