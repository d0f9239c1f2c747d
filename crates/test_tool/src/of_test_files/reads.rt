//! Which texts are read, and why others are not.

use crate::of_test_files::writes::{ENDED, RUNNING, TRAPPED};
use byte_list::Bytes;
use std::alloc::{AllocError as NoMemory, Global};
use std::test::Fail;
use test_files::{TestError, TestRefused, read_test, write_test};

/// A test of format 1.
pub(super) const JOINED: &str =
    "{\"end\":\"exit 7\",\"format\":1,\"input\":\"00\",\"leaf\":0,\"output\":\"\",\"path\":\"\",\"regions\":[\"00011000:1\"],\"steps\":3}\n";

/// What is put in place of what in a test of format 1, and why the text is then refused.
static JOINED_CHANGES: [(&str, &str, TestRefused); 21] = [
    ("\"end\"", "\"ends\"", TestRefused::Missing),
    ("\"input\"", "\"inputs\"", TestRefused::Missing),
    ("\"regions\"", "\"region\"", TestRefused::Missing),
    (
        "\"format\":1,\"input\":\"00\"",
        "\"format\":7",
        TestRefused::Kind,
    ),
    ("\"format\":1", "\"format\":2", TestRefused::Missing),
    ("\"input\":\"00\"", "\"input\":0", TestRefused::Kind),
    ("[\"00011000:1\"]", "\"00011000:1\"", TestRefused::Kind),
    ("[\"00011000:1\"]", "[69632]", TestRefused::Kind),
    ("00011000:1", "0001100A:1", TestRefused::Kind),
    ("00011000:1", "0011000:1", TestRefused::Kind),
    ("00011000:1", "00011000:01", TestRefused::Kind),
    ("00011000:1", "00011000:10000", TestRefused::Kind),
    ("0\",\"leaf\":0", "g\",\"leaf\":-1", TestRefused::Kind),
    ("\"input\":\"00\"", "\"input\":\"0\"", TestRefused::Hex),
    ("\"input\":\"00\"", "\"input\":\"0g\"", TestRefused::Hex),
    (
        "00\",\"leaf\":0,\"output\":\"",
        "0000\",\"leaf\":0,\"output\":\"g0",
        TestRefused::Hex,
    ),
    ("\"output\":\"\"", "\"output\":\"4\"", TestRefused::Hex),
    (
        "\"input\":\"00\"",
        "\"input\":\"0000\"",
        TestRefused::Length,
    ),
    ("\"input\":\"00\"", "\"input\":\"\"", TestRefused::Length),
    ("[\"00011000:1\"]", "[]", TestRefused::Length),
    ("00011000:1", "00011000:2", TestRefused::Length),
];

/// Likewise in a test of format 2.
static APART_CHANGES: [(&str, &str, TestRefused); 38] = [
    ("3}", "3", TestRefused::NotJson),
    ("3}", "3,}", TestRefused::NotJson),
    ("3}", "3}}", TestRefused::NotJson),
    ("\"end\"", "\"ends\"", TestRefused::Missing),
    ("\"format\":2,", "", TestRefused::Missing),
    ("\"inputs\"", "\"input\"", TestRefused::Missing),
    ("\"format\":2", "\"format\":1", TestRefused::Missing),
    (
        "\"leaf\":0,\"output\":\"\"",
        "\"leaf\":-1",
        TestRefused::Missing,
    ),
    // The format is looked at before the other keys.
    (
        "\"format\":2,\"inputs\"",
        "\"format\":3,\"input\"",
        TestRefused::Kind,
    ),
    ("\"end\":\"exit 7\",\"format\":2,", "", TestRefused::Missing),
    ("\"format\":2", "\"format\":0", TestRefused::Kind),
    ("\"format\":2", "\"format\":3", TestRefused::Kind),
    ("\"format\":2", "\"format\":2.0", TestRefused::Kind),
    ("\"format\":2", "\"format\":\"2\"", TestRefused::Kind),
    ("exit 7", "exit 256", TestRefused::Kind),
    ("exit 7", "exit 07", TestRefused::Kind),
    ("exit 7", "exit ", TestRefused::Kind),
    ("exit 7", "exit +7", TestRefused::Kind),
    ("exit 7", "trap break", TestRefused::Kind),
    ("exit 7", "cut", TestRefused::Kind),
    ("\"leaf\":0", "\"leaf\":9007199254740993", TestRefused::Kind),
    ("\"leaf\":0", "\"leaf\":1e3", TestRefused::Kind),
    ("\"path\":\"\"", "\"path\":\"Y\"", TestRefused::Kind),
    ("\"path\":\"\"", "\"path\":\"T@0001002\"", TestRefused::Kind),
    ("\"path\":\"\"", "\"path\":\"@0001002A\"", TestRefused::Kind),
    ("\"steps\":3", "\"steps\":0", TestRefused::Kind),
    ("\"steps\":3", "\"steps\":1000001", TestRefused::Kind),
    ("[{", "[7,{", TestRefused::Kind),
    ("\"at\":\"00011000\"", "\"at\":69632", TestRefused::Kind),
    (
        "\"at\":\"00011000\"",
        "\"at\":\"0001100A\"",
        TestRefused::Kind,
    ),
    ("\"at\":\"00011000\",", "", TestRefused::Kind),
    ("\"bytes\":\"00\"", "\"bytes\":[0]", TestRefused::Kind),
    // A value of another form is told before digits that are none, and these before a length.
    ("00\"}],\"leaf\":0", "0g\"}],\"leaf\":-1", TestRefused::Kind),
    ("\"bytes\":\"00\"", "\"bytes\":\"0\"", TestRefused::Hex),
    (
        "[{\"at\":\"00011000\",\"bytes\":\"00\"}]",
        "[{\"at\":\"00011000\",\"bytes\":\"\"},{\"at\":\"00011000\",\"bytes\":\"0g\"}]",
        TestRefused::Hex,
    ),
    (
        "\"bytes\":\"00\"}],\"leaf\":0,\"output\":\"",
        "\"bytes\":\"\"}],\"leaf\":0,\"output\":\"g0",
        TestRefused::Hex,
    ),
    ("\"bytes\":\"00\"", "\"bytes\":\"\"", TestRefused::Length),
    (
        "[{\"at\":\"00011000\",\"bytes\":\"00\"}]",
        "[]",
        TestRefused::Length,
    ),
];

/// Texts that are no tests in any way, in place of `x`.
static OTHERS: [(&str, &str, TestRefused); 5] = [
    ("x", "", TestRefused::NotJson),
    ("x", "{", TestRefused::NotJson),
    ("x", "[]", TestRefused::Kind),
    ("x", "7", TestRefused::Kind),
    ("x", "{}", TestRefused::Missing),
];

/// Keys in another order, one twice and one that no test needs, and digits in upper case, in each format.
static OTHERWISE: [&str; 2] = [
    "{\"steps\":0, \"path\":\"TN@00010028\",\"regions\":[\"00011000:2\"],\"more\":[{}],
    \"output\":\"0A\",\"leaf\":9007199254740992,\"input\":\"FFaB\",\"format\":1,\"end\":\"trap Break\",\"steps\":1000000}",
    "{\"steps\":0, \"path\":\"TN@00010028\",\"inputs\":[{\"bytes\":\"00\",\"more\":0,\"at\":\"00011000\",\"bytes\":\"FFaB\"}],\"regions\":7,
    \"output\":\"0A\",\"leaf\":9007199254740992,\"format\":2,\"end\":\"trap Break\",\"steps\":1000000}",
];

/// The same as they are written.
static WRITTEN: &str =
    "{\"end\":\"trap Break\",\"format\":2,\"inputs\":[{\"at\":\"00011000\",\"bytes\":\"ffab\"}],\"leaf\":9007199254740992,\"output\":\"0a\",\"path\":\"TN@00010028\",\"steps\":1000000}\n";

/// The first row for which the text, changed so, is not refused so.
fn first_wrong(
    alloc: Global,
    text: &str,
    rows: &[(&str, &str, TestRefused)],
) -> Result<Option<usize>, NoMemory> {
    for i in 0..rows.len() {
        let (old, new, why) = rows[i];
        let changed = text.replace(alloc, old, new)?;
        if read_test(alloc, changed.as_bytes()).err() != Some(TestError::Refused(why)) {
            return Ok(Some(i));
        }
    }
    Ok(None)
}

/// The test that the text is, written again.
fn written_again(alloc: Global, text: &str) -> Result<Bytes, TestError> {
    let test = read_test(alloc, text.as_bytes())?;
    Ok(write_test(alloc, &test)?)
}

/// Why a text is refused that has this byte so many times.
fn why_refused(alloc: Global, byte: u8, count: usize) -> Result<Option<TestError>, NoMemory> {
    let text = vec![in alloc; byte; count]?;
    Ok(read_test(alloc, &text).err())
}

#[test]
fn a_change_is_refused(rt: HostRuntime) -> Result<(), Fail> {
    assert_eq!(rt; first_wrong(rt.alloc(), JOINED, &JOINED_CHANGES)?, None);
    assert_eq!(rt; first_wrong(rt.alloc(), ENDED, &APART_CHANGES)?, None);
    Ok(())
}

#[test]
fn other_texts_are_refused(rt: HostRuntime) -> Result<(), Fail> {
    assert_eq!(rt; first_wrong(rt.alloc(), "x", &OTHERS)?, None);
    let broken = read_test(rt.alloc(), b"\"\xff\"");
    assert_eq!(rt;
        broken.err(),
        Some(TestError::Refused(TestRefused::NotJson))
    );
    Ok(())
}

#[test]
fn what_was_written_is_read_back(rt: HostRuntime) -> Result<(), Fail> {
    assert_eq!(rt;
        written_again(rt.alloc(), ENDED)?.as_slice(),
        ENDED.as_bytes()
    );
    assert_eq!(rt;
        written_again(rt.alloc(), RUNNING)?.as_slice(),
        RUNNING.as_bytes()
    );
    assert_eq!(rt;
        written_again(rt.alloc(), TRAPPED)?.as_slice(),
        TRAPPED.as_bytes()
    );
    Ok(())
}

#[test]
fn keys_may_stand_in_any_order(rt: HostRuntime) -> Result<(), Fail> {
    for text in &OTHERWISE {
        assert_eq!(rt;
            written_again(rt.alloc(), text)?.as_slice(),
            WRITTEN.as_bytes()
        );
    }
    Ok(())
}

#[test]
fn deep_nesting_is_no_json(rt: HostRuntime) -> Result<(), Fail> {
    let why = why_refused(rt.alloc(), b'[', 200_000)?;
    assert_eq!(rt; why, Some(TestError::Refused(TestRefused::NotJson)));
    Ok(())
}

#[test]
fn a_text_may_be_too_big(rt: HostRuntime) -> Result<(), Fail> {
    let why = why_refused(rt.alloc(), b' ', 16_777_217)?;
    assert_eq!(rt; why, Some(TestError::Refused(TestRefused::TooBig)));
    Ok(())
}
