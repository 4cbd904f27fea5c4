ghost use Rattle.std.specs.Prelude.{◌≡◌, ◌+◌, ◌≤◌, [], length, is_ok, IfOk, if◌then◌else◌, vec_len, vec_capacity};
ghost use Rattle.orders.specs.Meaning.{emptied};
ghost use Rattle.forecasts.specs.Leaving.{departures, foretold, all_placed};

use crate::Row;
use orders::{Expelled, Order};
use std::alloc::{AllocError, Global};

// Places every row, one after the other.
fn place_all<O: Order>(order: &mut O, rows: &[Row])
    ensures { O.Order.meaning order.new ≡ all_placed (O.Order.meaning order.old) rows.now }
{
    for row in rows {
        let _ = order.place(row.slot, row.cost);
    }
}

// Expels all, and adds each answer.
fn drain<O: Order>(order: &mut O, gone: &mut Vec<Expelled>)
    requires bare { gone.old.items ≡ [] }
    requires room { vec_len gone.old + length (O.Order.meaning order.old).waiting ≤ vec_capacity gone.old }
    ensures after { O.Order.meaning order.new ≡ emptied (O.Order.meaning order.old) }
    ensures answer { gone.new.items ≡ departures (O.Order.meaning order.old) }
{
    while let Some(leaver) = order.expel() {
        gone.push_reserved(leaver);
    }
}

/// Empties the order, places every row, and expels all: who leaves, one after the other. The order is left empty; if there
/// is not enough memory, it is left as it was.
pub fn leavers<O: Order>(
    heap: Global,
    order: &mut O,
    rows: &[Row],
) -> Result<Vec<Expelled>, AllocError>
    ensures after { O.Order.meaning order.new ≡ (if is_ok result then emptied (O.Order.meaning order.old) else O.Order.meaning order.old) }
    ensures answer { IfOk result (λ v. v.items ≡ foretold (O.Order.meaning order.old) rows.now) }
{
    let mut gone = Vec::with_capacity(heap, rows.len())?;
    order.empty();
    place_all(order, rows);
    drain(order, &mut gone);
    Ok(gone)
}
