use bnames::{NameTable, Probes};
use bpages::PagedStore;
use bword::{BinOp, DivZero, FlatStore, Name, Store, binary, char_at, negate, not, set_char};
use std::test::Fail;

#[test]
fn words(rt: HostRuntime) {
    assert!(rt; binary(BinOp::Shl, 1, 16) == Ok(0));
    assert!(rt; binary(BinOp::Rem, 1, 0) == Err(DivZero));
    assert_eq!(rt; [negate(1), not(1)], [65535, 0]);
}

// A string of one byte in a store, and its word.
fn byte_in<S: Store + Drop>(mut store: S) -> Result<(u16, u16), Fail> {
    set_char(&mut store, 10, 1, 321)?;
    Ok((char_at(&store, 10, 1), store.get(10)))
}

#[test]
fn stores(rt: HostRuntime) -> Result<(), Fail> {
    assert_eq!(rt; byte_in(FlatStore::new(rt.alloc())?)?, (65, 16640));
    let mut pages = PagedStore::new(rt.alloc())?;
    pages.set(255, 2)?;
    assert!(rt; pages.made() == 1 && pages.has_page(0));
    assert_eq!(rt; byte_in(pages)?, (65, 16640));
    Ok(())
}

#[test]
fn names(rt: HostRuntime) -> Result<(), Fail> {
    let name = Name::new("a_1").ok_or("a name")?;
    assert_eq!(rt; name.as_str(), "a_1");
    assert!(rt; Name::new("1a").is_none());
    let mut table = NameTable::new(rt.alloc());
    assert!(rt; table.insert(name, 7)?);
    let mut probes = Probes::new();
    assert_eq!(rt; table.find(&name, &mut probes), Some(7));
    assert!(rt; table.len() == 1 && probes.count() <= 2);
    Ok(())
}
