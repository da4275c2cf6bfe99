//! The table of names.

use bnames::{NameTable, Probes};
use bword::Name;
use std::collections::BTreeMap;
use std::test::Fail;

#[test]
fn five_names(rt: HostRuntime) -> Result<(), Fail> {
    let mut table = NameTable::new(rt.alloc());
    for (text, value) in [("g", 3), ("a", 0), ("i", 4), ("c", 1), ("e", 2)] {
        let name = Name::new(text).ok_or("no name")?;
        assert!(rt; table.insert(name, value)?, "{text}");
    }
    let first = Name::new("a").ok_or("no name")?;
    assert!(rt; !table.insert(first, 9)?);
    assert_eq!(rt; table.len(), 5);
    for (text, value) in [
        ("a", Some(0)),
        ("b", None),
        ("c", Some(1)),
        ("e", Some(2)),
        ("g", Some(3)),
        ("i", Some(4)),
    ] {
        let name = Name::new(text).ok_or("no name")?;
        let mut probes = Probes::new();
        assert_eq!(rt; table.find(&name, &mut probes), value, "{text}");
        assert!(rt; probes.count() <= 4, "{text}");
    }
    Ok(())
}

fn letter(n: u32) -> u8 {
    b'a' + (n % 26) as u8
}

// The names of three letters, in order.
fn name_of(n: u32) -> Option<Name> {
    Name::from_bytes(&[letter(n / 676), letter(n / 26), letter(n)])
}

// In order, in reverse and shuffled, beside a map of the library.
#[test]
fn many_names(rt: HostRuntime) -> Result<(), Fail> {
    for (step, start) in [(1, 0), (1999, 1999), (1201, 7)] {
        let mut table = NameTable::new(rt.alloc());
        let mut map = BTreeMap::new(rt.alloc());
        for k in 0..2000_u32 {
            let n = k.wrapping_mul(step).wrapping_add(start) % 2000;
            let name = name_of(n).ok_or("no name")?;
            assert!(rt; table.insert(name, n)?);
            map.insert(name, n)?;
        }
        assert_eq!(rt; table.len(), map.len());
        for n in 0..2100 {
            let name = name_of(n).ok_or("no name")?;
            let mut probes = Probes::new();
            assert_eq!(rt; table.find(&name, &mut probes), map.get(&name).copied());
            assert!(rt; probes.count() <= 12);
        }
    }
    Ok(())
}

// With an allocation that fails, and only that one, nothing has changed and the next try succeeds.
#[test]
fn a_refused_growth_changes_nothing(rt: HostRuntime) -> Result<(), Fail> {
    let mut table = NameTable::new(rt.alloc());
    for n in (0..1200).rev() {
        let name = name_of(n).ok_or("no name")?;
        if table.insert(name, n).is_err() {
            assert_eq!(rt; table.find(&name, &mut Probes::new()), None);
            assert!(rt; table.insert(name, n)?);
        }
    }
    assert_eq!(rt; table.len(), 1200);
    Ok(())
}
