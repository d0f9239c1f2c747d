//! What was spent, byte for byte, and the names of a leaf's files.

use byte_list::Bytes;
use fork_spec::Found;
use leaf_part::Spent;
use report_text::{leaf_name, spent_name, test_name, write_nodes, write_targets};
use std::alloc::{AllocError as NoMemory, Global};
use std::test::Fail;

/// Two values of a term over two input bytes.
static TWO: &str = "; spent targets 2
; term n12
v 00010020 00ff
v 00010028 070a
";

/// The values, and an assignment for each on which the term has it.
static VALUES: [(u32, &[u8]); 2] = [(0x0001_0020, &[0x00, 0xff]), (0x0001_0028, &[0x07, 0x0a])];

/// Puts a value and its assignment behind the others.
fn add(alloc: Global, values: &mut Vec<Found>, value: u32, input: &[u8]) -> Result<(), NoMemory> {
    let input = Bytes::from_slice(alloc, input)?;
    Ok(values.push(Found { value, input })?)
}

/// The two values.
fn two_values(alloc: Global) -> Result<Spent, NoMemory> {
    let mut found = Vec::new(alloc);
    for (value, input) in &VALUES {
        add(alloc, &mut found, *value, input)?;
    }
    Ok(Spent { term: 12, found })
}

/// Whether what was spent has this text.
fn is_written(alloc: Global, spent: &Spent, want: &str) -> Result<bool, NoMemory> {
    let text = write_targets(alloc, spent)?;
    Ok(text.as_slice() == want.as_bytes())
}

#[test]
fn values_are_written(rt: HostRuntime) -> Result<(), Fail> {
    let spent = two_values(rt.alloc())?;
    assert!(rt; is_written(rt.alloc(), &spent, TWO)?);
    Ok(())
}

#[test]
fn a_number_of_nodes_is_written(rt: HostRuntime) -> Result<(), Fail> {
    let text = write_nodes(rt.alloc(), 1_000_015)?;
    assert!(rt; text.as_slice() == "; spent nodes 1000015\n".as_bytes());
    Ok(())
}

#[test]
fn ranks_have_six_digits_or_more(rt: HostRuntime) -> Result<(), Fail> {
    assert_eq!(rt;
        leaf_name(rt.alloc(), "out", 0)?.as_str(),
        "out/leaf-000000.smt2"
    );
    assert_eq!(rt;
        spent_name(rt.alloc(), "out", 4)?.as_str(),
        "out/spent-000004.txt"
    );
    assert_eq!(rt;
        test_name(rt.alloc(), "a/b", 1_234_567)?.as_str(),
        "a/b/test-1234567.json"
    );
    Ok(())
}
