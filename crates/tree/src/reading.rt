//! Reads of a tree.
ghost use Rattle.std.specs.Prelude.{◌≡◌, ◌≤◌, IfOk, IfSome, IsSome, OnOk, OnErr, map, length};
ghost use Rattle.std.specs.FinMap.{get, len};
ghost use Rattle.std.specs.Option.{option_map};
ghost use Rattle.base.specs.Counting.{counted};
ghost use Rattle.base.specs.Surveys.{dead_block};
ghost use Rattle.base.specs.declared.refusal.Refusal.{Refusal};
ghost use Rattle.batch.specs.Cost.{CountsDropped};
ghost use Rattle.batch.specs.Forecast.{IsForecast};
ghost use Rattle.batch.specs.Updates.{changes_of, IsBatch};
ghost use Rattle.node.specs.Cells.{cell_of};
ghost use Rattle.node.specs.Unique.{IsUnique};
ghost use Rattle.node.specs.Walk.{born_after, blocks_of};
ghost use Rattle.tree.specs.Reading.{present_on_path};

use crate::tree::Tree;
use base::meter::Meter;
use base::number::{Dead, Group, Key};
use base::refusal::Refusal;
use batch::{Forecast, Update, forecast_of};
use node::{Cell, Level, span};
use std::alloc::Global;

impl Tree {
    /// The cell at a key, or None where there is none. It costs a step for each level from the root down.
    pub fn read(&self, key: Key, meter: &mut Meter) -> Option<Cell<'_>>
        ensures cell { option_map cell_of result ≡ get self.now key }
        ensures bytes { IfSome result (λ c. key.level ≡ 0 → IsSome c.bytes) }
        ensures metered { meter.new ≡ counted meter.old (present_on_path self.now key) }
        ensures never_lower { meter.old ≤ meter.new }
    {
        let _reached = meter.count();
        let Some(root) = &self.root else {
            return None;
        };
        if key.level > 5 {
            return None;
        }
        let depth = u32::from(5 - key.level);
        if key.index < span(depth) {
            root.find(depth, key.index, meter)
        } else {
            None
        }
    }

    /// How many blocks the tree has. No two of them have the same number. Constant time.
    pub fn node_count(&self) -> u32
        ensures count { result ≡ len self.now }
        ensures unique { IsUnique self.now }
    {
        self.count
    }

    /// The blocks born after a group, each before those below it (On-Disk Specification, chapter 2). Nothing is visited below a block that
    /// wasn't born after the group. NoMemory where there is none for the list. It costs the nodes that are visited, which the meter counts: it
    /// rises by at least one for each block of the list, and at `Err` is never lower.
    pub fn walk_after(
        &self,
        alloc: Global,
        cut: Group,
        meter: &mut Meter,
    ) -> Result<Vec<Dead>, Refusal>
        ensures ok { IfOk result (λ v. map dead_block v.items ≡ born_after cut.0 (blocks_of self.now)) }
        ensures metered { IfOk result (λ v. counted meter.old (length v.items) ≤ meter.new) }
        ensures never_lower { meter.old ≤ meter.new }
        ensures err { OnErr result (result ≡ Err Refusal.NoMemory) }
    {
        let _reached = meter.count();
        let mut out = Vec::new(alloc);
        if let Some(root) = &self.root {
            root.gather(cut, &mut out, meter)?;
        }
        Ok(out)
    }

    /// What a batch of changes would drop and make, whatever the group and the numbers. No number is chosen, and nothing changes. NoMemory where
    /// there is none for the lists. It costs the nodes on the paths to the changes, each with its sixteen places. The meter counts these nodes:
    /// it rises by at least one for each block that the change would drop, and at `Err` is never lower.
    pub fn forecast(
        &self,
        alloc: Global,
        updates: &[Update],
        meter: &mut Meter,
    ) -> Result<Forecast, Refusal>
        requires batch { IsBatch updates.now }
        ensures ok { IfOk result (IsForecast self.now (changes_of updates.now)) }
        ensures unique { IsUnique self.now }
        ensures err { OnErr result (result ≡ Err Refusal.NoMemory) }
        ensures metered { OnOk result (CountsDropped self.now (changes_of updates.now) meter.old meter.new) }
        ensures never_lower { meter.old ≤ meter.new }
    {
        Ok(forecast_of(alloc, &self.root, updates, meter)?)
    }
}
