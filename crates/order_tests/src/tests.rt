use crate::new_stack;
use orders::{BottomWheel, Entry, Expelled, FlatOrder, Order, Wheel, new_pile};

/// Places each entry in turn; whether all were taken.
fn takes_all<O: Order>(order: &mut O, entries: &[(u32, u32)]) -> bool {
    entries.iter().fold(true, |all, (slot, credit)| {
        order.place(*slot, *credit) && all
    })
}

/// Expels as often as entries are given; whether they left so, slot and credit.
fn leave_as<O: Order>(order: &mut O, entries: &[(u32, u32)]) -> bool {
    entries.iter().fold(true, |all, (slot, credit)| {
        let left = Expelled {
            slot: *slot,
            credit: *credit,
        };
        order.expel() == Some(left) && all
    })
}

/// What is placed in a fresh pile, slot and credit, and how it leaves again.
#[derive(Drop)]
struct Case<'a> {
    placed: &'a [(u32, u32)],
    leaves: &'a [(u32, u32)],
}

#[test]
fn fresh_piles_leave_in_order(rt: HostRuntime) {
    let cases = [
        // among equals the oldest placing first, in the upper wheel and through a migration
        Case {
            placed: &[(9, 30), (4, 30), (6, 30)],
            leaves: &[(9, 30), (4, 0), (6, 0)],
        },
        Case {
            placed: &[(9, 300), (4, 300), (6, 299), (1, 300)],
            leaves: &[(6, 299), (9, 1), (4, 0), (1, 0)],
        },
        // slots of one queue below and of several queues above
        Case {
            placed: &[(0, 767), (1, 512), (2, 640), (3, 512)],
            leaves: &[(1, 512), (3, 0), (2, 128), (0, 127)],
        },
        // a migration for each
        Case {
            placed: &[(1023, 65_280), (7, 256), (8, 32_768)],
            leaves: &[(7, 256), (8, 32_512), (1023, 32_512)],
        },
    ];
    for case in &cases {
        let mut pile = new_pile();
        assert!(rt; takes_all(&mut pile, case.placed));
        assert!(rt; leave_as(&mut pile, case.leaves));
        assert_eq!(rt; pile.expel(), None);
    }
}

#[test]
fn hands_are_remembered(rt: HostRuntime) {
    let mut pile = new_pile();
    assert!(rt; takes_all(&mut pile, &[(1, 255), (2, 600)]));
    assert!(rt; leave_as(&mut pile, &[(1, 255)]));
    // the hand is at 255: a credit of 256 reaches 511, behind one of 1
    assert!(rt; takes_all(&mut pile, &[(3, 256), (4, 1)]));
    assert!(rt; leave_as(&mut pile, &[(4, 1), (3, 255), (2, 89)]));
    let mut wheel = BottomWheel::new();
    assert!(rt; takes_all(&mut wheel, &[(5, 200)]));
    assert!(rt; leave_as(&mut wheel, &[(5, 200)]));
    assert!(rt; takes_all(&mut wheel, &[(6, 255), (7, 100), (8, 55)]));
    assert!(rt; leave_as(&mut wheel, &[(8, 55), (7, 45), (6, 155)]));
}

#[test]
fn declined_calls_change_nothing(rt: HostRuntime) {
    let mut pile = new_pile();
    assert!(rt; !pile.place(1024, 1) && !pile.place(3, 0) && !pile.place(3, 65_281));
    assert!(rt; pile.place(3, 1) && !pile.place(3, 2) && pile.place(5, 400) && !pile.place(5, 1));
    assert!(rt; !pile.withdraw(4) && !pile.withdraw(1024) && !pile.due());
    assert!(rt; pile.withdraw(3) && !pile.withdraw(3) && pile.withdraw(5) && !pile.withdraw(5));
    assert!(rt;
        takes_all(&mut pile, &[(5, 10), (3, 10), (6, 10)]) && pile.withdraw(5) && pile.place(5, 10)
    );
    assert!(rt; leave_as(&mut pile, &[(3, 10)]) && pile.due());
    assert!(rt; leave_as(&mut pile, &[(6, 0), (5, 0)]));
    assert_eq!(rt; pile.expel(), None);
}

#[test]
fn taller_stacks_leave_in_order(rt: HostRuntime) {
    let mut stack = new_stack();
    assert!(rt;
        !stack.place(2, 16_711_681)
            && takes_all(
                &mut stack,
                &[(2, 16_711_680), (3, 65_537), (4, 65_536), (5, 65_537)],
            )
    );
    assert!(rt; leave_as(&mut stack, &[(4, 65_536), (3, 1), (5, 0), (2, 16_646_143)]));
    let mut tower = Wheel::new(new_stack());
    assert!(rt; tower.size() == 1024 && tower.span() == 4_278_190_080);
    assert!(rt;
        takes_all(
            &mut tower,
            &[(2, 4_278_190_080), (3, 16_777_217), (4, 16_777_216)],
        )
    );
    assert!(rt; leave_as(&mut tower, &[(4, 16_777_216), (3, 1), (2, 4_261_412_863)]));
}

#[test]
fn emptied_stacks_start_afresh(rt: HostRuntime) {
    let mut stack = new_stack();
    assert!(rt;
        takes_all(&mut stack, &[(1, 200), (2, 70_000), (3, 70_000)])
            && leave_as(&mut stack, &[(1, 200), (2, 69_800)])
    );
    assert!(rt; stack.due());
    stack.empty();
    assert!(rt; !stack.due() && !stack.withdraw(3));
    assert_eq!(rt; stack.expel(), None);
    assert!(rt;
        takes_all(&mut stack, &[(3, 256), (2, 255)]) && leave_as(&mut stack, &[(2, 255), (3, 1)])
    );
}

#[test]
fn flat_order_and_a_wheel_over_it(rt: HostRuntime) {
    let mut flat = FlatOrder::new();
    assert!(rt; !flat.place(1024, 1) && !flat.place(1, 0) && !flat.place(1, 65_281));
    assert!(rt;
        takes_all(&mut flat, &[(9, 300), (4, 300), (6, 299), (1, 65_280)]) && !flat.place(9, 1)
    );
    assert!(rt; leave_as(&mut flat, &[(6, 299), (9, 1), (4, 0), (1, 64_980)]) && !flat.due());
    // its credits are 256 times coarser below the wheel, and the remembered queues keep them apart
    let mut wheel = Wheel::new(FlatOrder::new());
    assert!(rt; wheel.size() == 1024 && wheel.span() == 16_711_680);
    assert!(rt;
        takes_all(
            &mut wheel,
            &[(1, 16_711_680), (2, 513), (3, 512), (4, 513), (5, 7)],
        )
    );
    assert!(rt;
        leave_as(
            &mut wheel,
            &[(5, 7), (3, 505), (2, 1), (4, 0), (1, 16_711_167)],
        )
    );
}
