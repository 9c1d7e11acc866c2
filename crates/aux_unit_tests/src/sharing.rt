//! What no clause says: that the copies of a symbol, and a name and what it hands out, share their bytes.
use graph_nodes::Name;
use stacks_vars::Symbol;
use std::alloc::{AllocError, Global};
use std::sync::Arc;
use std::test::Fail;

/// How many hold the bytes of a symbol once it was copied: the symbol, its copy and the one who counts.
fn holders(alloc: Global) -> Result<usize, AllocError> {
    let bytes = Arc::new(alloc, Vec::from_slice(alloc, b"xy")?)?;
    let symbol = Symbol::sharing(Arc::try_clone(&bytes)?);
    let copy = symbol.copy()?;
    let count = Arc::strong_count(&bytes);
    Ok(if copy.same(&symbol) { count } else { 0 })
}

#[test]
fn copies_share_the_bytes(rt: HostRuntime) -> Result<(), Fail> {
    assert_eq!(rt; holders(rt.alloc())?, 3);
    Ok(())
}

#[test]
fn a_name_shares_its_bytes(rt: HostRuntime) -> Result<(), Fail> {
    let name = Name::of(rt.alloc(), "xy")?;
    let bytes = name.shared()?;
    assert_eq!(rt; Arc::strong_count(&bytes), 2);
    assert_eq!(rt; bytes.as_slice(), name.as_bytes());
    Ok(())
}
