//! What an audit says of certificates that were written by hand.

ghost use Rattle.std.specs.Prelude.{◌<◌, ◌^◌, length};

use crate::certificates::THREE_LEAVES;
use cert_audit::{Leaves, Verdict, audit};
use cert_query::Reason;
use cert_text::read_cert;
use elf_load::{Image, load};
use row_files::{programs, row_file};
use std::alloc::Global;
use std::test::Fail;

/// Of `CALLED`: four numbers of environment calls that there aren't, and the rest.
static FOUR_VALUES: &str = "rvklee cert 1
regions 00011000:1
budgets 10000 4 2000 1000000
split =00000000 =00000001 =00000002 =00000003 R!targets
end 00
end 01
end 02
end 03
v 00000000 00
v 00000001 01
v 00000002 02
v 00000003 03
w 04
";

/// Of `ADDED`: its byte leads to the page from 0x11100 on, which is mapped, or to the one behind.
static TWO_PAGES: &str = "rvklee cert 1
regions 00011000:1
budgets 10000 16 2000 1000000
split =00000111 =00000112
tried
end 00
end 80
";

/// What is put in place of what, and the line and the reason of the no that is said then.
type Row<'a> = (&'a str, &'a str, usize, Reason);

static OF_THREE_LEAVES: [Row<'static>; 19] = [
    ("00011000:1", "00020000:1", 2, Reason::Budget),
    ("budgets 10000", "budgets 0", 3, Reason::Budget),
    ("10000 16", "1000001 16", 3, Reason::Budget),
    ("10000 16", "10000 65", 3, Reason::Budget),
    ("split N Y\none", "split Y N\none", 4, Reason::Place),
    ("split N Y\none", "split N\none", 4, Reason::Place),
    ("split N Y\none", "end 00\none", 4, Reason::Place),
    ("split N Y\none", "one N\none", 5, Reason::Place),
    ("split N Y\none", "cut nodes\none", 5, Reason::Place),
    ("one Y", "one N", 6, Reason::Tried),
    ("one Y", "one R", 5, Reason::Place),
    ("tried", "end 00", 6, Reason::Place),
    ("end 00", "end 0a", 7, Reason::Sample),
    ("end 00", "end 0000", 7, Reason::Sample),
    ("end 00", "cut steps 00", 7, Reason::Place),
    ("end 15", "end 0a", 9, Reason::Sample),
    ("end 0a\n", "", 10, Reason::Place),
    ("end 0a\n", "cut nodes\n", 10, Reason::Place),
    ("end 0a\n", "end 0a\nend 0a\n", 11, Reason::Place),
];

static OF_FOUR_VALUES: [Row<'static>; 12] = [
    ("10000 4", "10000 5", 4, Reason::Budget),
    (
        "=00000001 =00000002",
        "=00000002 =00000001",
        4,
        Reason::Place,
    ),
    (" R!targets", "", 5, Reason::Place),
    ("R!targets", "R", 4, Reason::Place),
    ("end 01", "end 02", 6, Reason::Sample),
    ("v 00000000 00\n", "", 9, Reason::Sample),
    ("v 00000001 01", "v 00000001 02", 10, Reason::Sample),
    ("v 00000002 02", "v 00000005 02", 11, Reason::Sample),
    ("v 00000003 03\n", "", 12, Reason::Place),
    ("w 04", "w 03", 13, Reason::Sample),
    ("w 04", "end 04", 13, Reason::Place),
    ("w 04\n", "", 13, Reason::Place),
];

static OF_TWO_PAGES: [Row<'static>; 3] = [
    ("=00000112", "=00000113", 5, Reason::Tried),
    ("tried\n", "", 5, Reason::Place),
    ("end 80", "end 7f", 7, Reason::Sample),
];

static CUT: [Row<'static>; 3] = [
    (
        "10000 16 2000 1000000",
        "2 16 2000 1000000",
        4,
        Reason::Place,
    ),
    (WALK, "cut steps 00\n", 4, Reason::Place),
    (WALK, "cut nodes\n", 4, Reason::Budget),
];

const WALK: &str = "split N Y
one Y
tried
end 00
split N Y
end 15
end 0a
";

/// Of `COMPARED`, where two steps may be made.
static TWO_STEPS: &str = "rvklee cert 1
regions 00011000:1
budgets 2 16 2000 1000000
cut steps 00
";

/// The same, where one node may be.
static ONE_NODE: &str = "rvklee cert 1
regions 00011000:1
budgets 10000 16 2000 1
cut nodes
";

fn image_of(alloc: Global, words: &[u32]) -> Result<Image, Fail>
    requires { length words.now < 2 ^ 30 }
{
    let file = row_file(alloc, words)?;
    let image = load(alloc, file.as_slice()).ok().ok_or("the file loads")?;
    Ok(image)
}

// What is said of a certificate of a program.
fn said(alloc: Global, words: &[u32], text: &str) -> Result<Verdict, Fail>
    requires { length words.now < 2 ^ 30 }
{
    let image = image_of(alloc, words)?;
    let cert = read_cert(alloc, text.as_bytes())?
        .ok()
        .ok_or("it is a certificate")?;
    Ok(audit(alloc, image, &cert)?)
}

// The first row of which something else is said.
fn first_wrong(
    alloc: Global,
    words: &[u32],
    text: &str,
    rows: &[Row<'static>],
) -> Result<Option<usize>, Fail>
    requires { length words.now < 2 ^ 30 }
{
    for i in 0..rows.len() {
        let (old, new, line, reason) = rows[i];
        let changed = text.replace(alloc, old, new)?;
        if said(alloc, words, &changed)? != (Verdict::No { line, reason }) {
            return Ok(Some(i));
        }
    }
    Ok(None)
}

// What is said of a tree with so many leaves.
fn yes(finished: usize, cut: usize) -> Verdict {
    Verdict::Yes(Leaves { finished, cut })
}

#[test]
fn certificates_are_believed(rt: HostRuntime) -> Result<(), Fail> {
    let alloc = rt.alloc();
    assert_eq!(rt; said(alloc, &programs::COMPARED, THREE_LEAVES)?, yes(3, 0));
    assert_eq!(rt; said(alloc, &programs::CALLED, FOUR_VALUES)?, yes(4, 1));
    assert_eq!(rt; said(alloc, &programs::ADDED, TWO_PAGES)?, yes(2, 0));
    assert_eq!(rt; said(alloc, &programs::COMPARED, TWO_STEPS)?, yes(0, 1));
    assert_eq!(rt; said(alloc, &programs::COMPARED, ONE_NODE)?, yes(0, 1));
    Ok(())
}

#[test]
fn changed_branches_are_refused(rt: HostRuntime) -> Result<(), Fail> {
    let alloc = rt.alloc();
    let words = &programs::COMPARED;
    assert_eq!(rt;
        first_wrong(alloc, words, THREE_LEAVES, &OF_THREE_LEAVES)?,
        None
    );
    assert_eq!(rt; first_wrong(alloc, words, THREE_LEAVES, &CUT)?, None);
    Ok(())
}

#[test]
fn changed_values_are_refused(rt: HostRuntime) -> Result<(), Fail> {
    let alloc = rt.alloc();
    assert_eq!(rt;
        first_wrong(alloc, &programs::CALLED, FOUR_VALUES, &OF_FOUR_VALUES)?,
        None
    );
    assert_eq!(rt;
        first_wrong(alloc, &programs::ADDED, TWO_PAGES, &OF_TWO_PAGES)?,
        None
    );
    Ok(())
}
