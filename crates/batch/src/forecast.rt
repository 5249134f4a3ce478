//! What a batch of changes would drop and make, before any number is chosen.
ghost use Rattle.std.specs.Prelude.{◌≡◌, ◌≤◌, ◌++◌, ℕ, IfOk, OnOk};
ghost use Rattle.batch.specs.Cost.{CountsDropped};
ghost use Rattle.batch.specs.Forecast.{kept_of, IsForecast};
ghost use Rattle.batch.specs.Updates.{changes_of, IsBatch};
ghost use Rattle.node.specs.Entries.{map_of};
ghost use Rattle.node.specs.Node.{root_forest};
ghost use Rattle.node.specs.Sound.{IsSoundTree};

use crate::findings::{Claim, findings_of};
use crate::update::{Update, write_count};
use crate::way::{WAY, present, way_of_write};
use base::meter::Meter;
use base::number::{Dead, Group};
use node::Root;
use std::alloc::{AllocError, Global};
use std::sync::Arc;

/// What a change would do: `dropped` are the present blocks of the keys that it touches, and `made` is how many blocks it would make.
#[derive(Drop)]
pub struct Forecast {
    pub dropped: Vec<Dead>,
    pub made: usize,
}

/// Adds the blocks that claims keep in place.
fn add_kept(claims: &[Claim], dropped: &mut Vec<Dead>) -> Result<(), AllocError>
    ensures { OnOk result (dropped.new.items ≡ dropped.old.items ++ kept_of claims.now) }
{
    for claim in claims {
        if let Some(dead) = claim.kept {
            dropped.push(dead)?;
        }
    }
    Ok(())
}

/// What a batch would do to a tree. It costs the nodes on the paths to the changes, each with its
/// sixteen places. The meter counts these nodes: it rises by at least one for each block that the change drops, and at `Err` is never lower.
pub fn forecast_of(
    alloc: Global,
    root: &Option<Arc<Root>>,
    updates: &[Update],
    meter: &mut Meter,
) -> Result<Forecast, AllocError>
    requires sound { (count : ℕ) × IsSoundTree root.now count }
    requires batch { IsBatch updates.now }
    ensures ok { IfOk result (IsForecast (map_of (root_forest root.now)) (changes_of updates.now)) }
    ensures metered { OnOk result (CountsDropped (map_of (root_forest root.now)) (changes_of updates.now) meter.old meter.new) }
    ensures never_lower { meter.old ≤ meter.new }
{
    let room = write_count(updates).saturating_add(5);
    let mut blocks = [None; 6];
    if let Some(_leaf) = way_of_write(root, updates, &mut blocks, meter) {
        let dropped = present(alloc, &blocks)?;
        return Ok(Forecast { dropped, made: WAY });
    }
    let (findings, _touched) = findings_of(alloc, root, updates, room, Group(0), meter)?;
    let made = findings.claims.len();
    let mut dropped = findings.released;
    dropped.reserve(made)?;
    add_kept(&findings.claims, &mut dropped)?;
    Ok(Forecast { dropped, made })
}
