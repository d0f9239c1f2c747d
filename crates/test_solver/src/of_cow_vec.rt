//! A list that shares its chunks with a copy and is changed.

use cow_vec::CowVec;
use std::alloc::AllocError as NoMemory;
use std::test::Fail;

// Puts another number in the place of the first, and answers what stands there in a copy that was made before, and now.
fn changed(one: &mut CowVec<u32>, number: u32) -> Result<(Option<u32>, Option<u32>), NoMemory> {
    let other = one.share()?;
    if !one.is_empty() {
        one.set(0, number)?;
    }
    Ok((other.get(0), one.get(0)))
}

#[test]
fn copies_go_on_differently(rt: HostRuntime) -> Result<(), Fail> {
    let mut one = CowVec::new(rt.alloc());
    one.push(64)?;
    assert_eq!(rt; changed(&mut one, 7)?, (Some(64), Some(7)));
    Ok(())
}
