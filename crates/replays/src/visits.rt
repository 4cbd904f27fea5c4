// One row: its key is got and, if absent, kept.
ghost use Rattle.std.specs.Prelude.{◌≡◌, ◌≤◌, List, length};
ghost use Rattle.keys.specs.declared.region.RegionNumber.{RegionNumber as Number};
ghost use Rattle.promises.specs.Lines.{Making};
ghost use Rattle.cache.specs.Whole.{state_of};
ghost use Rattle.traces.specs.declared.rows.Row.{Row as OneRow};
ghost use Rattle.replays.specs.Standing.{kept_as, Stands, Missed, Goes};

use cache::Cache;
use directories::Directory;
use keys::RegionNumber;
use orders::Order;
use promises::{Evicted, Kept, Refusal};
use traces::{Outcome, Row};

// No `From`: it needs the row's cost.
/// What a row led to, by what its keep did.
fn outcome_of(kept: Kept<Evicted<RegionNumber>>, cost: u32) -> Outcome
    ensures { result ≡ kept_as kept cost }
{
    match kept {
        Kept::Refreshed => Outcome::Hit,
        Kept::Taken => Outcome::Taken { cost },
        Kept::TakenEvicting(evicted) => Outcome::Evicting {
            cost,
            key: evicted.key,
        },
    }
}

// The cache and the slab go from call to call apart: a struct of both cannot lend the slab to a get while its cache is lent as `&mut`.
/// Keeps the key of a row whose get missed, with an empty value.
fn keep_row<D: Directory<RegionNumber>, O: Order>(
    cache: &mut Cache<RegionNumber, D, O>,
    row: Row,
    slab: &mut [u8],
) -> Result<Outcome, Refusal>
    requires { 1 ≤ row.cost }
    ensures { (m : Making Number) (before : List OneRow) → Missed m (length slab.old) before row (state_of cache.old) → Goes m (length slab.old) before row (state_of cache.new) result × (slab.new ≡ slab.old) }
{
    let kept = cache.keep(row.key, row.cost, &[], slab)?;
    Ok(outcome_of(kept, row.cost))
}

/// Gets the key of a row and, if it is absent, keeps it.
pub(crate) fn visit<D: Directory<RegionNumber>, O: Order>(
    cache: &mut Cache<RegionNumber, D, O>,
    row: Row,
    slab: &mut [u8],
) -> Result<Outcome, Refusal>
    requires { 1 ≤ row.cost }
    ensures { (m : Making Number) (before : List OneRow) → Stands m before (state_of cache.old) → Goes m (length slab.old) before row (state_of cache.new) result × (slab.new ≡ slab.old) }
{
    let found = cache.get(&row.key, slab)?;
    if found.is_some() {
        return Ok(Outcome::Hit);
    }
    keep_row(cache, row, slab)
}
