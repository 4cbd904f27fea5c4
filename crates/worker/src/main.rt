//! Two workers repair a mesh over a cache of two regions, and the program prints what they did: a lease, a collapse that fails, its
//! cleanup path, an eviction and the second worker, in the order in which a region could be freed while it is held. It depends on
//! `workers` and on the parts that the cache is made of, and holds nothing but `main`.
#![tactic(auto)]

use cache::Cache;
use directories::{Cell, HashedDirectory};
use orders::new_pile;
use std::io;
use workers::{pointed_at, repair};

fn main(rt: HostRuntime) -> io::Result<()> {
    let mut cells = [Cell::new(); 2];
    let mut cache = Cache::new(HashedDirectory::new(&mut cells), new_pile(), 1, 24);
    let mut slab = [0; 48];
    let day = repair(&mut cache, &mut slab);
    let _parts = cache.into_parts();
    for entry in day.log.entries() {
        println!(rt; "{entry}")?;
    }
    let Some(region) = day.left else {
        return println!(rt; "region 1 is gone");
    };
    match pointed_at(&region, &[2, 4]) {
        None => println!(rt; "no triangle of region 1 points at a deleted vertex, 2 or 4"),
        Some(vertex) => println!(rt;
            "a triangle of region 1 points at the deleted vertex {vertex}"
        ),
    }
}
