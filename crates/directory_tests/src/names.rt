// Which bytes are a part name.
use keys::{Key, PartName};
use std::test::Fail;

// These bytes should have made a name.
#[derive(Clone, Copy, Debug)]
pub(crate) struct NoName;

// The length of the name that these bytes make, or 0, no name's length, if they make none: the figures below are written so.
fn made(bytes: &[u8]) -> usize {
    PartName::new(bytes).map_or(0, |name| name.bytes().len())
}

#[test]
fn which_bytes(rt: HostRuntime) {
    assert_eq!(rt; made(b""), 0);
    assert_eq!(rt; made(b"-"), 1);
    assert_eq!(rt; made(b"AZ09-"), 5);
    assert_eq!(rt; made(b"ABCDEFGHIJKLMNOP"), 16);
    assert_eq!(rt; made(b"ABCDEFGHIJKLMNOPQ"), 0);
    assert_eq!(rt; made(b"GEAr"), 0);
    assert_eq!(rt; made(b"GEAR 7"), 0);
    // the neighbours of the ranges
    assert_eq!(rt; made(b"A/"), 0);
    assert_eq!(rt; made(b"A:"), 0);
    assert_eq!(rt; made(b"A@"), 0);
    assert_eq!(rt; made(b"A["), 0);
}

#[test]
fn same_bytes(rt: HostRuntime) -> Result<(), Fail> {
    let gear = PartName::new(b"GEAR").ok_or(NoName)?;
    let again = PartName::new(b"GEAR").ok_or(NoName)?;
    let longer = PartName::new(b"GEAR-").ok_or(NoName)?;
    assert!(rt; gear.same(&again));
    assert!(rt; !gear.same(&longer));
    assert_eq!(rt; gear.home(), again.home());
    assert!(rt; gear.bytes() == b"GEAR".as_slice());
    Ok(())
}
