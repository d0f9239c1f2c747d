//! Tests of either format that are written in format 2.

use crate::of_test_files::reads::JOINED;
use crate::of_test_files::writes::{ENDED, TRAPPED};
use byte_list::Bytes;
use std::alloc::{AllocError as NoMemory, Global};
use std::test::Fail;
use test_files::{TestError, TestRefused, read_test, upgrade_test};

/// The test that traps, in format 1: two regions, and keys in another order.
const TRAPPED_JOINED: &str =
    "{\"format\":1,\"end\":\"trap LoadAccess\",\"input\":\"00FF41\",\"leaf\":12,\"output\":\"0a\",\"path\":\"TN@00010028\",\"regions\":[\"00011000:1\",\"fffffffe:2\"],\"steps\":4}";

/// Texts, and what they are in format 2.
const UPGRADED: [(&str, &str); 4] = [
    (JOINED, ENDED),
    (ENDED, ENDED),
    (TRAPPED_JOINED, TRAPPED),
    (TRAPPED, TRAPPED),
];

/// What is put in place of what in a test of format 1, so that it has no text in format 2.
static CHANGES: [(&str, &str); 2] = [
    ("[\"00011000:1\"]", "[\"00011000:1\",\"00011001:0\"]"),
    (
        "\"input\":\"00\",\"leaf\":0,\"output\":\"\",\"path\":\"\",\"regions\":[\"00011000:1\"]",
        "\"input\":\"\",\"leaf\":0,\"output\":\"\",\"path\":\"\",\"regions\":[]",
    ),
];

/// What a test of format 1, and one of format 2, has before and behind its digits, with so many bytes in one region.
static LONG: [(&str, &str); 2] = [
    (
        "{\"end\":\"exit 7\",\"format\":1,\"leaf\":0,\"output\":\"\",\"path\":\"\",\"regions\":[\"7fff0000:1024\"],\"steps\":3,\"input\":\"",
        "\"}",
    ),
    (
        "{\"end\":\"exit 7\",\"format\":2,\"leaf\":0,\"output\":\"\",\"path\":\"\",\"steps\":3,\"inputs\":[{\"at\":\"7fff0000\",\"bytes\":\"",
        "\"}]}",
    ),
];

/// The text with zeros for so many bytes.
fn with_zeros(alloc: Global, parts: (&str, &str), digits: usize) -> Result<Vec<u8>, NoMemory> {
    let mut zeros = Vec::new(alloc);
    zeros.resize(digits, b'0')?;
    let mut text = Vec::from_slice(alloc, parts.0.as_bytes())?;
    text.extend_from_slice(&zeros)?;
    text.extend_from_slice(parts.1.as_bytes())?;
    Ok(text)
}

/// What it is in format 2, or why it is refused.
fn upgraded(alloc: Global, text: &[u8]) -> Result<Bytes, TestError> {
    upgrade_test(alloc, text)
}

#[test]
fn tests_are_written_in_format_2(rt: HostRuntime) -> Result<(), Fail> {
    for (text, new) in &UPGRADED {
        assert_eq!(rt;
            upgraded(rt.alloc(), text.as_bytes())?.as_slice(),
            new.as_bytes()
        );
    }
    Ok(())
}

#[test]
fn a_test_without_inputs_has_no_such_text(rt: HostRuntime) -> Result<(), Fail> {
    for (old, new) in &CHANGES {
        let text = JOINED.replace(rt.alloc(), old, new)?;
        assert!(rt; read_test(rt.alloc(), text.as_bytes()).is_ok());
        let why = upgraded(rt.alloc(), text.as_bytes()).err();
        assert_eq!(rt; why, Some(TestError::Refused(TestRefused::Length)));
    }
    Ok(())
}

#[test]
fn at_most_1024_bytes_are_taken(rt: HostRuntime) -> Result<(), Fail> {
    for parts in &LONG {
        let most = with_zeros(rt.alloc(), *parts, 2_048)?;
        assert!(rt; upgraded(rt.alloc(), &most).is_ok());
        let more = with_zeros(rt.alloc(), *parts, 2_050)?;
        let why = upgraded(rt.alloc(), &more).err();
        assert_eq!(rt; why, Some(TestError::Refused(TestRefused::Length)));
    }
    Ok(())
}

#[test]
fn what_is_no_test_is_refused_alike(rt: HostRuntime) -> Result<(), Fail> {
    let why = upgraded(rt.alloc(), b"{}").err();
    assert_eq!(rt; why, Some(TestError::Refused(TestRefused::Missing)));
    Ok(())
}
