// The run, and what is told of it.
use crate::alone::run_alone;
use cache::{Kept, Presence};
use directories::{Cell, HashedDirectory};
use keys::RegionNumber;
use orders::new_pile;
use runs::{Ask, Happening};
use std::alloc::{AllocError, Global};
use std::process::Abort;
use std::test::Fail;

// What is told of an accepted call: regions by their numbers, tickets by mark and slot.
#[derive(Clone, Copy, Debug, PartialEq)]
enum Outcome {
    Taken(u32),
    Evicting(u32, u32),
    Lent(u32, u32, usize),
    Out(u32),
    Written(u32, usize),
    Found(u32, usize),
    GivenBack(u32, usize),
    /// None of these.
    Other,
}

impl From<&Happening<RegionNumber>> for Outcome {
    fn from(happening: &Happening<RegionNumber>) -> Outcome {
        match happening {
            Happening::Keep(key, _, Ok(Kept::Taken)) => Outcome::Taken(key.number),
            Happening::Keep(key, _, Ok(Kept::TakenEvicting(left))) => {
                Outcome::Evicting(key.number, left.key.number)
            }
            Happening::Lease(key, Ok(ticket)) => Outcome::Lent(
                key.number,
                ticket.mark,
                ticket.slot,
            ),
            Happening::State(key, Presence::Out) => Outcome::Out(key.number),
            Happening::Write(ticket, Ok(())) => Outcome::Written(ticket.mark, ticket.slot),
            Happening::Get(key, Ok(Some(len))) => Outcome::Found(key.number, *len),
            Happening::GiveBack(ticket, Ok(())) => Outcome::GivenBack(ticket.mark, ticket.slot),
            _ => Outcome::Other,
        }
    }
}

fn region(number: u32) -> RegionNumber {
    RegionNumber { number }
}

// Two slots are filled, the first region is lent, and a third takes the place of the second. The lease is still in hand at the end.
fn asks(heap: Global) -> Result<[Ask<RegionNumber>; 7], AllocError> {
    let one = b"1111".to_vec(heap)?;
    let two = b"22".to_vec(heap)?;
    let three = b"333".to_vec(heap)?;
    let again = b"1".to_vec(heap)?;
    Ok([
        Ask::Keep(region(1), 5, one),
        Ask::Keep(region(2), 3, two),
        Ask::Lease(region(1)),
        Ask::Keep(region(3), 4, three),
        Ask::State(region(1)),
        Ask::Write(0, again),
        Ask::Get(region(1)),
    ])
}

fn as_expected(rt: &impl Abort, told: &[Happening<RegionNumber>]) -> Result<(), Fail> {
    assert!(rt; told.len() == 8);
    assert_eq!(rt; Outcome::from(&told[0]), Outcome::Taken(1));
    assert_eq!(rt; Outcome::from(&told[1]), Outcome::Taken(2));
    assert_eq!(rt; Outcome::from(&told[3]), Outcome::Evicting(3, 2));
    assert_eq!(rt; Outcome::from(&told[4]), Outcome::Out(1));
    assert_eq!(rt; Outcome::from(&told[6]), Outcome::Found(1, 1));
    // which slot a region takes is the directory's choice, but all three calls name the same
    match Outcome::from(&told[2]) {
        Outcome::Lent(number, mark, slot) => {
            assert_eq!(rt; number, 1);
            assert_eq!(rt; mark, 7);
            assert_eq!(rt; Outcome::from(&told[5]), Outcome::Written(mark, slot));
            assert_eq!(rt; Outcome::from(&told[7]), Outcome::GivenBack(mark, slot));
            Ok(())
        }
        _ => Err(Fail::new("the lease was not told")),
    }
}

#[test]
fn lent_to_the_end(rt: HostRuntime) -> Result<(), Fail> {
    let asks = asks(rt.alloc())?;
    let mut cells = [Cell::new(); 2];
    let mut slab = [0; 8];
    let (_directory, _order, told) = run_alone(
        rt.alloc(),
        HashedDirectory::new(&mut cells),
        new_pile(),
        7,
        4,
        &mut slab,
        &asks,
    );
    match told {
        Some(happenings) => as_expected(&rt, happenings.as_slice()),
        None => Err(Fail::new("no memory")),
    }
}
