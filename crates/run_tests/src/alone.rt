// A run that begins with no lease in hand.
use cache::Lease;
use directories::Directory;
use keys::Key;
use orders::Order;
use runs::{Ask, Finished, Happening, NoRoom, run};
use std::alloc::Global;

/// Runs the asks with no lease in hand, and answers the parts and what was told, if there was room for the run. No lease comes back, so the
/// list of leases can be let go.
pub(crate) fn run_alone<K: Key, D: Directory<K>, O: Order>(
    heap: Global,
    directory: D,
    order: O,
    mark: u32,
    chunk: usize,
    slab: &mut [u8],
    asks: &[Ask<K>],
) -> (D, O, Option<Vec<Happening<K>>>) {
    let mut leases: Vec<Lease> = Vec::new(heap);
    let ran = run(heap, directory, order, mark, chunk, slab, asks, &mut leases);
    leases.destroy_empty();
    match ran {
        Ok(
            Finished {
                directory,
                order,
                happenings,
            },
        ) => (directory, order, Some(happenings)),
        Err(NoRoom { directory, order }) => (directory, order, None),
    }
}
