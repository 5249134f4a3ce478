//! Counts, from the dead lists, of the blocks that a dataset of a file system lacks and the dataset before it has.
ghost use Rattle.std.specs.Prelude.{◌≡◌, ◌≤◌, ◌+◌, ◌-◌, ◌^◌, min, map};
ghost use Rattle.std.specs.List.{sum_by};
ghost use Rattle.std.specs.Option.{option_map};
ghost use Rattle.std.specs.FinSet.{len};
ghost use Rattle.world.specs.Blocks.{upto, after};
ghost use Rattle.file_system.specs.Gone.{count_on, is_asked, kept_count, entry_count, dead_between, size_on, reach_of, kept_reach, whole_reach, lists_reach};

use crate::file_system::FileSystem;
use base::meter::SegMeter;
use base::number::Group;
use deadlist::deadlist::Deadlist;
use shared_list::SharedList;
use snapshots::Kept;

/// Which entries of a dead list are counted: those of blocks born no later than a group, or born after it.
#[derive(Clone, Copy)]
pub enum Side {
    Upto,
    After,
}

/// Which entries of the dead lists of a file system are counted. The dead lists are those of the snapshots after the group `from`, or of all
/// where it is None, and no later than the group `until`. Where `until` is None, all later ones count, and that of the live map too. Of these
/// lists, the entries on one side of the cut are counted.
#[derive(Clone, Copy)]
pub struct Asked {
    pub from: Option<Group>,
    pub until: Option<Group>,
    pub side: Side,
    pub cut: Group,
}

// Whether the dead list of a snapshot of this group is counted. Constant time.
fn asks_for(asked: Asked, group: Group) -> bool
    ensures { result ≡ is_asked asked (Some group.0) }
{
    let is_later = match asked.from {
        Some(from) => from.0 < group.0,
        None => true,
    };
    let is_by = match asked.until {
        Some(until) => group.0 <= until.0,
        None => true,
    };
    is_later && is_by
}

// The number of entries of this dead list on the asked side of the cut. The meter counts the segments of the list and the entries that the sum
// looks at.
fn count_on(dead: &Deadlist, asked: Asked, segments: &mut SegMeter) -> u64
    ensures count { result ≡ count_on asked.side asked.cut.0 dead.now.entries }
    ensures meter { segments.new ≤ segments.old + reach_of dead.now }
    ensures never_lower { segments.old ≤ segments.new }
{
    match asked.side {
        Side::Upto => dead.space_upto(asked.cut, segments),
        Side::After => dead.space_after(asked.cut, segments),
    }
}

// The number of counted entries of a snapshot's dead list. Where the list is counted, it costs what `count_on` does.
fn count_kept(kept: &Kept, asked: Asked, segments: &mut SegMeter) -> u64
    ensures count { result ≡ kept_count asked kept.now }
    ensures meter { segments.new ≤ segments.old + kept_reach asked kept.now }
    ensures never_lower { segments.old ≤ segments.new }
{
    if asks_for(asked, kept.snapshot.group()) {
        count_on(&kept.dead, asked, segments)
    } else {
        0
    }
}

// The number of counted entries of the dead lists of these snapshots, at most the greatest u64. It costs what `count_gone` does.
fn count_snapshots(kept: &SharedList<Kept>, asked: Asked, segments: &mut SegMeter) -> u64
    ensures count { result ≡ min (2 ^ 64 - 1) (sum_by (kept_count asked) kept.now) }
    ensures meter { segments.new ≤ segments.old + sum_by (kept_reach asked) kept.now }
    ensures never_lower { segments.old ≤ segments.new }
{
    let mut total: u64 = 0;
    for kept in kept.iter() {
        total = total.saturating_add(count_kept(kept, asked, segments));
    }
    total
}

/// The number of counted entries of the dead lists of these snapshots and of the live map, at most the greatest u64. It costs the number of
/// snapshots, and for each dead list that is counted its segments and the entries that the sum looks at, which the meter counts.
pub fn count_gone(
    kept: &SharedList<Kept>,
    dead: &Deadlist,
    asked: Asked,
    segments: &mut SegMeter,
) -> u64
    ensures count { result ≡ min (2 ^ 64 - 1) (entry_count asked kept.now dead.now.entries) }
    ensures meter { segments.new ≤ segments.old + whole_reach asked kept.now dead.now }
    ensures never_lower { segments.old ≤ segments.new }
{
    let total = count_snapshots(kept, asked, segments);
    if asked.until.is_some() {
        return total;
    }
    total.saturating_add(count_on(dead, asked, segments))
}

impl FileSystem {
    // The number of counted entries of the dead lists of this file system. It costs what `gone_upto` does.
    fn gone_with(&self, asked: Asked, segments: &mut SegMeter) -> u64
        ensures count { result ≡ min (2 ^ 64 - 1) (sum_by (λ g. size_on asked.side asked.cut.0 g.blocks) (dead_between (option_map (λ g. g.0) asked.from) (option_map (λ g. g.0) asked.until) self.now)) }
        ensures meter { segments.new ≤ segments.old + lists_reach (dead_between (option_map (λ g. g.0) asked.from) (option_map (λ g. g.0) asked.until) self.now) }
        ensures never_lower { segments.old ≤ segments.new }
    {
        count_gone(self.snapshots.list(), &self.dead, asked, segments)
    }

    /// The number of blocks born no later than the cut that a dataset of this file system lacks and the dataset before it has (zfsprops(7):
    /// written@snapshot). It is the sum over the snapshots whose group is after `from` and no later than `until`, and the live map where `until`
    /// is None. A block counts once for each of these datasets that lacks it while the dataset before has it. The count stops at the greatest
    /// u64. It costs the number of snapshots, and for each of these dead lists, which has one segment, about the square of the logarithm of the
    /// number of its entries.
    pub fn gone_upto(
        &self,
        from: Option<Group>,
        until: Option<Group>,
        cut: Group,
        segments: &mut SegMeter,
    ) -> u64
        ensures count { result ≡ min (2 ^ 64 - 1) (sum_by (λ g. len (upto cut.0 g.blocks)) (dead_between (option_map (λ g. g.0) from) (option_map (λ g. g.0) until) self.now)) }
        ensures meter { segments.new ≤ segments.old + lists_reach (dead_between (option_map (λ g. g.0) from) (option_map (λ g. g.0) until) self.now) }
        ensures never_lower { segments.old ≤ segments.new }
    {
        let side = Side::Upto;
        let asked = Asked {
            from,
            until,
            side,
            cut,
        };
        self.gone_with(asked, segments)
    }

    /// The number of blocks born after the cut that a dataset of this file system lacks and the dataset before it has, summed up as in
    /// `gone_upto` and at the same cost (zfsprops(7): used; zfs-destroy(8): -n).
    pub fn gone_after(
        &self,
        from: Option<Group>,
        until: Option<Group>,
        cut: Group,
        segments: &mut SegMeter,
    ) -> u64
        ensures count { result ≡ min (2 ^ 64 - 1) (sum_by (λ g. len (after cut.0 g.blocks)) (dead_between (option_map (λ g. g.0) from) (option_map (λ g. g.0) until) self.now)) }
        ensures meter { segments.new ≤ segments.old + lists_reach (dead_between (option_map (λ g. g.0) from) (option_map (λ g. g.0) until) self.now) }
        ensures never_lower { segments.old ≤ segments.new }
    {
        let side = Side::After;
        let asked = Asked {
            from,
            until,
            side,
            cut,
        };
        self.gone_with(asked, segments)
    }
}
