//! A file against the fields of its headers, byte by byte.

use row_files::programs::STRAIGHT;
use row_files::row_file;
use std::test::Fail;

fn is_straight(bytes: &[u8]) -> bool {
    bytes.len() == 128
        && bytes[..8] == [0x7F, 0x45, 0x4C, 0x46, 1, 1, 1, 0]
        && bytes[24..28] == [0, 0, 1, 0]
        && bytes[68..72] == [12, 0, 0, 0]
        && bytes[104..108] == [0, 2, 0, 0]
        && bytes[116..120] == [0x13, 0x05, 0x70, 0]
}

#[test]
fn a_file_has_two_headers_and_its_words(rt: HostRuntime) -> Result<(), Fail> {
    let file = row_file(rt.alloc(), &STRAIGHT)?;
    assert!(rt; is_straight(file.as_slice()));
    Ok(())
}
