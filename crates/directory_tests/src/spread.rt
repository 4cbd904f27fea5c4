// How homes spread over the buckets of a directory.
ghost use Rattle.std.specs.Prelude.{◌<◌};

use keys::{Key, PartName, RegionNumber};
use std::array;
use std::test::Fail;

// How many of the homes fall into one bucket.
fn in_bucket(homes: &[u32], buckets: u32, bucket: u32) -> usize
    requires { 0 < buckets }
{
    homes
        .iter()
        .filter(|home| **home % buckets == bucket)
        .count()
}

// The most that fall into any one.
fn fullest(homes: &[u32], buckets: u32) -> usize
    requires { 0 < buckets }
{
    (0..buckets)
        .map(|bucket| in_bucket(homes, buckets, bucket))
        .max()
        .unwrap_or(0)
}

// The homes of 64 region numbers, each `stride` after the one before.
fn numbers(stride: u16) -> [u32; 64] {
    array::from_fn(|i| {
        RegionNumber {
            number: i as u32 * stride as u32,
        }
        .home()
    })
}

// The homes of the names GEAR-00 to GEAR-63.
fn gears() -> Option<[u32; 64]> {
    let mut homes = [0; 64];
    for (i, home) in homes.iter_mut().enumerate() {
        let tens = (i / 10) as u8;
        let ones = (i % 10) as u8;
        let text = [b'G', b'E', b'A', b'R', b'-', b'0' + tens, b'0' + ones];
        *home = PartName::new(&text)?.home();
    }
    Some(homes)
}

// 64 numbers that stand next to each other, or apart by a power of two or by 1,000: at most two of them share
// one of 64 buckets, and hardly any one of 1,024.
#[test]
fn numbers_spread(rt: HostRuntime) {
    for stride in [1, 2, 16, 64, 256, 1000, 1024] {
        assert!(rt; fullest(&numbers(stride), 64) <= 2);
        assert!(rt; fullest(&numbers(stride), 1024) <= 2);
    }
    assert_eq!(rt; fullest(&numbers(1), 1024), 1);
}

// 64 names that share a prefix.
#[test]
fn names_spread(rt: HostRuntime) -> Result<(), Fail> {
    let homes = gears().ok_or("GEAR")?;
    assert!(rt; fullest(&homes, 64) <= 2);
    assert_eq!(rt; fullest(&homes, 1024), 1);
    Ok(())
}
