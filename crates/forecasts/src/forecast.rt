ghost use Rattle.std.specs.Prelude.{MatchResult};
ghost use Rattle.forecasts.specs.Leaving.{Foretells};
ghost use Rattle.forecasts.specs.Table.{Blames};

use crate::ForecastError;
use crate::leaving::leavers;
use crate::table::read_rows;
use orders::{Expelled, FlatOrder, new_pile};
use std::alloc::Global;

/// What a table foretells.
#[derive(Drop)]
pub struct Forecast {
    /// Who leaves a pile, one after the other.
    pub leavers: Vec<Expelled>,
    /// Whether a flat order answers the same. It is an answer of its own, and no `Result`: the leavers are told either way.
    pub agrees: bool,
}

/// Reads the table, and runs a pile and a flat order over its rows.
pub fn foretell(heap: Global, text: &[u8]) -> Result<Forecast, ForecastError>
    ensures { MatchResult result (λ f. Foretells text.now f.leavers.items f.agrees) (λ e. Blames text.now e) }
{
    let rows = read_rows(heap, text)?;
    let mut pile = new_pile();
    let by_pile = leavers(heap, &mut pile, rows.as_slice())?;
    let mut flat = FlatOrder::new();
    let by_flat = leavers(heap, &mut flat, rows.as_slice())?;
    let agrees = by_pile.as_slice() == by_flat.as_slice();
    Ok(Forecast {
        leavers: by_pile,
        agrees,
    })
}
