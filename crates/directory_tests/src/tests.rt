// Tables of calls against both directories.
use crate::crowded::Crowded;
use crate::names::NoName;
use crate::table::{Step, first_wrong};
use directories::{Cell, Directory, HashedDirectory, NumberedDirectory};
use keys::{Key, PartName, RegionNumber};
use std::test::Fail;

fn region(number: u32) -> RegionNumber {
    RegionNumber { number }
}

// What both directories do alike with region numbers, at a capacity of 3.
fn alike() -> [Step<RegionNumber>; 26] {
    [
        Step::Size(3),
        Step::Find(region(7), None),
        Step::Remove(region(7), false),
        Step::Name(0, None),
        Step::Enter(region(7), Some(2)),
        Step::Enter(region(7), None),
        Step::Enter(region(4095), Some(1)),
        Step::Enter(region(0), Some(0)),
        // full
        Step::Enter(region(8), None),
        Step::Admits(region(4095), true),
        Step::Find(region(4095), Some(1)),
        Step::Name(1, Some(region(4095))),
        Step::Name(3, None),
        // the slot of a removed key is used again, and the others stay
        Step::Remove(region(4095), true),
        Step::Remove(region(4095), false),
        Step::Find(region(4095), None),
        Step::Name(1, None),
        Step::Enter(region(8), Some(1)),
        Step::Find(region(7), Some(2)),
        Step::Find(region(0), Some(0)),
        // a size above the capacity, and one below it
        Step::Empty(5000),
        Step::Size(3),
        Step::Find(region(8), None),
        Step::Empty(1),
        Step::Enter(region(8), Some(0)),
        Step::Enter(region(9), None),
    ]
}

#[test]
fn numbers_in_both(rt: HostRuntime) {
    let steps = alike();
    let mut cells = [Cell::new(); 3];
    let mut hashed = HashedDirectory::new(&mut cells);
    assert_eq!(rt; first_wrong(&mut hashed, &steps), None, "hashed");
    let mut numbered = NumberedDirectory::new(3);
    assert_eq!(rt; first_wrong(&mut numbered, &steps), None, "numbered");
}

// With no slot at all.
#[test]
fn capacity_none(rt: HostRuntime) {
    let steps = [
        Step::Size(0),
        Step::Admits(region(1), true),
        Step::Enter(region(1), None),
        Step::Find(region(1), None),
        Step::Remove(region(1), false),
        Step::Name(0, None),
        Step::Empty(5000),
        Step::Size(0),
        Step::Enter(region(1), None),
    ];
    let mut cells = [Cell::new(); 0];
    let mut hashed = HashedDirectory::new(&mut cells);
    assert_eq!(rt; first_wrong(&mut hashed, &steps), None, "hashed");
    let mut numbered = NumberedDirectory::new(0);
    assert_eq!(rt; first_wrong(&mut numbered, &steps), None, "numbered");
}

// The last number that the numbered directory admits, the first that it does not, and the greatest capacity of each.
#[test]
fn limits(rt: HostRuntime) {
    let steps = [
        Step::Size(1024),
        Step::Admits(region(4095), true),
        Step::Admits(region(4096), false),
        Step::Enter(region(4096), None),
        Step::Find(region(4096), None),
        Step::Remove(region(4096), false),
        Step::Enter(region(4095), Some(1023)),
        Step::Find(region(4095), Some(1023)),
    ];
    let mut numbered = NumberedDirectory::new(5000);
    assert_eq!(rt; first_wrong(&mut numbered, &steps), None, "numbered");
    let mut cells = [Cell::new(); 1100];
    let mut hashed = HashedDirectory::new(&mut cells);
    let steps = [
        Step::Size(1024),
        Step::Admits(region(4096), true),
        Step::Enter(region(4096), Some(1023)),
    ];
    assert_eq!(rt; first_wrong(&mut hashed, &steps), None, "hashed");
}

// Every key in one bucket: the chain is cut at its head, in its midst and at its end, and mended.
#[test]
fn one_bucket(rt: HostRuntime) {
    let key = [1, 6, 11, 14, 19];
    for n in key {
        assert_eq!(rt; region(n).home() % 4, 1);
    }
    let steps = [
        Step::Enter(region(1), Some(3)),
        Step::Enter(region(6), Some(2)),
        Step::Enter(region(11), Some(1)),
        Step::Enter(region(14), Some(0)),
        Step::Enter(region(19), None),
        Step::Remove(region(11), true),
        Step::Find(region(1), Some(3)),
        Step::Remove(region(14), true),
        Step::Find(region(6), Some(2)),
        Step::Enter(region(19), Some(0)),
        Step::Enter(region(11), Some(1)),
        Step::Remove(region(1), true),
        Step::Find(region(19), Some(0)),
        Step::Find(region(11), Some(1)),
        Step::Find(region(6), Some(2)),
        Step::Find(region(1), None),
        Step::Enter(region(6), None),
    ];
    let mut cells = [Cell::new(); 4];
    let mut hashed = HashedDirectory::new(&mut cells);
    assert_eq!(rt; first_wrong(&mut hashed, &steps), None);
}

// A key is found by a same one, and answered as it was entered.
#[test]
fn as_entered(rt: HostRuntime) -> Result<(), Fail> {
    let mut cells = [Cell::new(); 2];
    let mut hashed = HashedDirectory::new(&mut cells);
    let slot = hashed.enter(Crowded { number: 5, tag: 1 });
    let again = hashed.enter(Crowded { number: 5, tag: 2 });
    assert_eq!(rt; slot, Some(1));
    assert_eq!(rt; again, None);
    let found = hashed.find(&Crowded { number: 5, tag: 3 });
    assert_eq!(rt; found, Some(1));
    let key = hashed.name(1).ok_or("no key")?;
    assert_eq!(rt; key.tag, 1);
    assert!(rt; hashed.remove(&Crowded { number: 5, tag: 4 }));
    Ok(())
}

#[test]
fn part_names(rt: HostRuntime) -> Result<(), Fail> {
    let gear = PartName::new(b"GEAR-7").ok_or(NoName)?;
    let bolt = PartName::new(b"BOLT").ok_or(NoName)?;
    let long = PartName::new(b"ABCDEFGHIJKLMNOP").ok_or(NoName)?;
    let steps = [
        Step::Enter(gear, Some(1)),
        Step::Admits(long, true),
        Step::Enter(gear, None),
        Step::Enter(bolt, Some(0)),
        Step::Enter(long, None),
        Step::Name(1, Some(gear)),
        Step::Remove(gear, true),
        Step::Remove(gear, false),
        Step::Enter(long, Some(1)),
        Step::Name(1, Some(long)),
        Step::Find(gear, None),
        Step::Find(bolt, Some(0)),
    ];
    let mut cells = [Cell::new(); 2];
    let mut hashed = HashedDirectory::new(&mut cells);
    assert_eq!(rt; first_wrong(&mut hashed, &steps), None);
    Ok(())
}
