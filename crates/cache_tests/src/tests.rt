// The tables, and the caches that they are run against.
use crate::loans::{play_foreign, play_lent, play_two_lent};
use crate::table::{Answer, Keys, Name, Step, Text, Wrong};
use cache::Cache;
use directories::{Cell, Directory, HashedDirectory, NumberedDirectory};
use keys::{Key, PartName, RegionNumber};
use orders::{FlatOrder, Order, new_pile};
use std::test::Fail;

// Each cache of these tests has two slots of four bytes, if it has any.
const CHUNK: usize = 4;

const WHOLE: usize = 8;

const SHORT: usize = 7;

const NONE: Text = Text { letter: 0, len: 0 };

const ONE: Text = Text { letter: 1, len: 1 };

const TWO: Text = Text { letter: 2, len: 4 };

const LONG: Text = Text { letter: 3, len: 5 };

// While nothing is held, with a lease of another cache in hand.
fn unheld() -> [Step; 17] {
    [
        Step::State(Name::A, Answer::Absent),
        Step::Get(Name::A, WHOLE, Answer::Missing),
        Step::Lease(Name::A, Answer::Refused(5)),
        Step::Drop(Name::A, Answer::Refused(5)),
        // a short slab before a miss
        Step::Get(Name::A, SHORT, Answer::Refused(3)),
        // 1 before 2 and 3, and 2 before 3
        Step::Keep(Name::A, 0, LONG, SHORT, Answer::Refused(1)),
        Step::Keep(Name::A, 0, LONG, WHOLE, Answer::Refused(1)),
        Step::Keep(Name::A, 0, ONE, SHORT, Answer::Refused(1)),
        Step::Keep(Name::A, 65_281, ONE, WHOLE, Answer::Refused(1)),
        Step::Keep(Name::A, 5, LONG, SHORT, Answer::Refused(2)),
        Step::Keep(Name::A, 5, LONG, WHOLE, Answer::Refused(2)),
        Step::Keep(Name::A, 5, ONE, SHORT, Answer::Refused(3)),
        // 2 before 3 and 4, and 3 before 4
        Step::Write(LONG, SHORT, Answer::Refused(2)),
        Step::Write(LONG, WHOLE, Answer::Refused(2)),
        Step::Write(ONE, SHORT, Answer::Refused(3)),
        Step::Write(ONE, WHOLE, Answer::Refused(4)),
        Step::State(Name::A, Answer::Absent),
    ]
}

// While nothing is out. It leaves the first key held, at cost 5, with no bytes.
fn waiting() -> [Step; 14] {
    [
        Step::Keep(Name::A, 5, TWO, WHOLE, Answer::Taken),
        Step::Get(Name::A, WHOLE, Answer::Found(TWO)),
        Step::Keep(Name::A, 5, NONE, WHOLE, Answer::Refreshed),
        // no bytes, and still a value
        Step::Get(Name::A, WHOLE, Answer::Found(NONE)),
        Step::Keep(Name::B, 3, ONE, WHOLE, Answer::Taken),
        // the least credit leaves
        Step::Keep(Name::C, 4, ONE, WHOLE, Answer::Evicting(Name::B)),
        // a touch gives the full cost again, so that another leaves
        Step::Get(Name::A, WHOLE, Answer::Found(NONE)),
        Step::Keep(Name::D, 1, ONE, WHOLE, Answer::Evicting(Name::C)),
        Step::State(Name::C, Answer::Absent),
        Step::Lease(Name::D, Answer::Done),
        Step::State(Name::D, Answer::Waiting),
        Step::Drop(Name::D, Answer::Done),
        Step::Drop(Name::D, Answer::Refused(5)),
        Step::State(Name::A, Answer::Waiting),
    ]
}

// While the first key is out. It leaves the third held beside it.
fn one_out() -> [Step; 18] {
    [
        Step::State(Name::A, Answer::Out),
        Step::Get(Name::A, WHOLE, Answer::Found(NONE)),
        Step::Get(Name::A, SHORT, Answer::Refused(3)),
        Step::Lease(Name::A, Answer::Refused(6)),
        Step::Drop(Name::A, Answer::Refused(6)),
        // 1, 2 and 3 before 6
        Step::Keep(Name::A, 0, ONE, WHOLE, Answer::Refused(1)),
        Step::Keep(Name::A, 5, LONG, WHOLE, Answer::Refused(2)),
        Step::Keep(Name::A, 5, ONE, SHORT, Answer::Refused(3)),
        Step::Keep(Name::A, 5, ONE, WHOLE, Answer::Refused(6)),
        // 2 before 3
        Step::Write(LONG, SHORT, Answer::Refused(2)),
        Step::Write(LONG, WHOLE, Answer::Refused(2)),
        Step::Write(ONE, SHORT, Answer::Refused(3)),
        Step::Write(TWO, WHOLE, Answer::Done),
        // the only one that waits leaves, though it cost more
        Step::Keep(Name::B, 9, ONE, WHOLE, Answer::Taken),
        Step::Keep(Name::C, 4, ONE, WHOLE, Answer::Evicting(Name::B)),
        Step::State(Name::A, Answer::Out),
        Step::Get(Name::A, WHOLE, Answer::Found(TWO)),
        Step::Get(Name::C, WHOLE, Answer::Found(ONE)),
    ]
}

// While both slots are out, of the first key and of the third.
fn both_out() -> [Step; 8] {
    [
        // 1, 2 and 3 before 8
        Step::Keep(Name::B, 0, ONE, WHOLE, Answer::Refused(1)),
        Step::Keep(Name::B, 5, LONG, WHOLE, Answer::Refused(2)),
        Step::Keep(Name::B, 5, ONE, SHORT, Answer::Refused(3)),
        Step::Keep(Name::B, 5, ONE, WHOLE, Answer::Refused(8)),
        Step::Keep(Name::C, 5, ONE, WHOLE, Answer::Refused(6)),
        Step::Write(TWO, WHOLE, Answer::Done),
        Step::Get(Name::C, WHOLE, Answer::Found(TWO)),
        Step::State(Name::A, Answer::Out),
    ]
}

// Once both are back.
fn back() -> [Step; 4] {
    [
        Step::State(Name::A, Answer::Waiting),
        Step::Write(ONE, WHOLE, Answer::Refused(4)),
        Step::Get(Name::A, WHOLE, Answer::Found(TWO)),
        Step::Get(Name::C, WHOLE, Answer::Found(TWO)),
    ]
}

// Of the last key where it is not admitted, whoever is out.
fn not_admitted() -> [Step; 7] {
    [
        // 1, 2 and 3 before 7
        Step::Keep(Name::E, 0, ONE, WHOLE, Answer::Refused(1)),
        Step::Keep(Name::E, 5, LONG, WHOLE, Answer::Refused(2)),
        Step::Keep(Name::E, 5, ONE, SHORT, Answer::Refused(3)),
        // 7 before 8
        Step::Keep(Name::E, 5, ONE, WHOLE, Answer::Refused(7)),
        Step::State(Name::E, Answer::Absent),
        Step::Lease(Name::E, Answer::Refused(5)),
        Step::Get(Name::E, WHOLE, Answer::Missing),
    ]
}

// With no slot at all no slab is short, and every slot is out. The last key is not admitted.
fn no_slots() -> [Step; 8] {
    [
        Step::Get(Name::A, 0, Answer::Missing),
        Step::Keep(Name::A, 0, ONE, 0, Answer::Refused(1)),
        Step::Keep(Name::A, 5, LONG, 0, Answer::Refused(2)),
        Step::Keep(Name::E, 5, ONE, 0, Answer::Refused(7)),
        Step::Keep(Name::A, 5, ONE, 0, Answer::Refused(8)),
        Step::Write(LONG, 0, Answer::Refused(2)),
        Step::Write(ONE, 0, Answer::Refused(4)),
        Step::Lease(Name::A, Answer::Refused(5)),
    ]
}

// What every cache does alike. The other cache is there for its leases.
fn alike<K: Key, D: Directory<K>, O: Order>(
    cache: &mut Cache<K, D, O>,
    slab: &mut [u8],
    other: &mut Cache<K, D, O>,
    keys: &Keys<K>,
) -> Result<(), Wrong> {
    let mut spare = [0; WHOLE];
    let _ = other.keep(keys.a, 1, &[1], &mut spare);
    play_foreign(cache, slab, other, keys, &unheld())?;
    play_foreign(cache, slab, other, keys, &waiting())?;
    play_lent(cache, slab, Name::A, keys, &one_out())?;
    play_two_lent(cache, slab, Name::A, Name::C, keys, &both_out())?;
    play_foreign(cache, slab, other, keys, &back())
}

fn regions() -> Keys<RegionNumber> {
    Keys {
        a: RegionNumber { number: 1 },
        b: RegionNumber { number: 2 },
        c: RegionNumber { number: 3 },
        d: RegionNumber { number: 4_095 },
        e: RegionNumber { number: 4_096 },
    }
}

// Two caches over a pile and a hashed directory, for a key kind.
fn hashed_in_a_pile<K: Key>(
    keys: &Keys<K>,
    cells: &mut [Cell<K>],
    others: &mut [Cell<K>],
) -> Result<(), Wrong> {
    let mut cache = Cache::new(HashedDirectory::new(cells), new_pile(), 7, CHUNK);
    let mut other = Cache::new(HashedDirectory::new(others), new_pile(), 8, CHUNK);
    let mut slab = [0; WHOLE];
    let played = alike(&mut cache, &mut slab, &mut other, keys);
    let _parts = cache.into_parts();
    let _others = other.into_parts();
    played
}

#[test]
fn regions_hashed_in_a_pile() -> Result<(), Fail> {
    hashed_in_a_pile(&regions(), &mut [Cell::new(); 2], &mut [Cell::new(); 2])?;
    Ok(())
}

fn names() -> Option<Keys<PartName>> {
    Some(Keys {
        a: PartName::new(b"AXLE")?,
        b: PartName::new(b"AXLE-2")?,
        c: PartName::new(b"BOLT")?,
        d: PartName::new(b"CRANK-SHAFT-0016")?,
        e: PartName::new(b"E")?,
    })
}

#[test]
fn names_hashed_in_a_pile() -> Result<(), Fail> {
    let keys = names().ok_or(Wrong::NoName)?;
    hashed_in_a_pile(&keys, &mut [Cell::new(); 2], &mut [Cell::new(); 2])?;
    Ok(())
}

// Both caches have one mark, against the host's duty: a lease of the one is still refused where its slot is not out.
#[test]
fn regions_numbered_in_a_flat_order() -> Result<(), Fail> {
    let mut cache = Cache::new(NumberedDirectory::new(2), FlatOrder::new(), 7, CHUNK);
    let mut other = Cache::new(NumberedDirectory::new(2), FlatOrder::new(), 7, CHUNK);
    let mut slab = [0; WHOLE];
    let keys = regions();
    let played = alike(&mut cache, &mut slab, &mut other, &keys);
    let idle = play_foreign(&mut cache, &mut slab, &mut other, &keys, &not_admitted());
    let lent = play_two_lent(
        &mut cache,
        &mut slab,
        Name::A,
        Name::C,
        &keys,
        &not_admitted(),
    );
    let _parts = cache.into_parts();
    let _others = other.into_parts();
    played?;
    idle?;
    lent?;
    Ok(())
}

#[test]
fn no_slot() -> Result<(), Fail> {
    let mut cache = Cache::new(NumberedDirectory::new(0), FlatOrder::new(), 7, CHUNK);
    let mut other = Cache::new(NumberedDirectory::new(2), FlatOrder::new(), 8, CHUNK);
    let keys = regions();
    let mut slab = [0; WHOLE];
    let _ = other.keep(keys.a, 1, &[1], &mut slab);
    let played = play_foreign(&mut cache, &mut [], &mut other, &keys, &no_slots());
    let _parts = cache.into_parts();
    let _others = other.into_parts();
    played?;
    Ok(())
}
