//! The ledger of a pool's file systems.
ghost use Rattle.std.specs.Prelude.{[], ◌≡◌, ◌<◌, ◌≤◌, ◌+◌, ◌*◌, ◌^◌, IsSome, IfSome, IfOk, IfErr};
ghost use Rattle.std.specs.FinMap.{get};
ghost use Rattle.std.specs.FinSet.{len};
ghost use Rattle.base.specs.declared.refusal.Refusal.{Refusal};
ghost use Rattle.model.specs.Hierarchy.{IsHierarchy};
ghost use Rattle.model.specs.Rule.{first_of};
ghost use Rattle.model.specs.State.{State};
ghost use Rattle.model.specs.Sums.{used_of, used_by_children, room_of};
ghost use Rattle.model.specs.World.{union_of};
ghost use Rattle.model.specs.requests.Change.{limit_row};
ghost use Rattle.world.specs.Tables.{world_of};
ghost use Rattle.limits.specs.Levels.{slashes};
ghost use Rattle.limits.specs.Lines.{IsSmall};
ghost use Rattle.limits.specs.Ledgers.{line_in, ledger_of, IsSpaceOf};

use crate::charging::{charge_all, refill};
use crate::line::Line;
use crate::near::Near;
use crate::place::place_seen;
use crate::pool_space::Space;
use base::name::DsName;
use base::refusal::Refusal;
use datasets::{FILE_SYSTEM_LIMIT, Table, parent_of};
use std::alloc::Global;
use std::marker::Model;

/// A line for each file system of a pool, in byte order of the names: its account, and what its children use. Contracts see the lines. Beside
/// them it keeps hints where parents stand, which save searches.
pub struct Ledger {
    pub(crate) lines: Vec<Line>,
    pub(crate) near: Near,
}

// Written by hand, so that it is proved once: a derived one is expanded anew in each crate that drops the type.
impl Drop for Ledger {
    fn drop(self) {
        let Ledger { lines, near } = self;
        drop(lines);
        drop(near);
    }
}

impl Model for Ledger {
    ghost use Rattle.std.specs.Prelude.{List, ◌≤◌};
    ghost use Rattle.std.specs.List.{All};
    ghost use Rattle.limits.specs.declared.line.Line.{Line};
    ghost use Rattle.limits.specs.Changes.{IsModest};
    ghost use Rattle.limits.specs.Lines.{IsSmall};

    ghost Value = { List Line };

    ghost view = { λ l. l.lines.items };

    ghost invariant = { λ l. All IsSmall l.lines.items × All IsModest l.lines.items × (1024 ≤ l.lines.cap) };
}

impl Ledger {
    /// An empty ledger, with room for as many lines as a table can have file systems. NoMemory where memory is refused.
    pub fn new(alloc: Global) -> Result<Ledger, Refusal>
        ensures ok { IfOk result (λ l. l ≡ []) }
        ensures err { IfErr result (λ e. e ≡ Refusal.NoMemory) }
    {
        let lines = Vec::with_capacity(alloc, FILE_SYSTEM_LIMIT)?;
        let near = Near::new(alloc)?;
        Ok(Ledger { lines, near })
    }

    /// A ledger with the same lines, and with the room that `new` makes. NoMemory where memory is refused. It costs that room and the number of
    /// lines.
    pub fn copy(&self) -> Result<Ledger, Refusal>
        ensures ok { IfOk result (λ l. l ≡ self.now) }
        ensures err { IfErr result (λ e. e ≡ Refusal.NoMemory) }
    {
        let mut lines = Vec::with_capacity(*self.lines.allocator(), FILE_SYSTEM_LIMIT)?;
        lines.extend_from_slice(&self.lines)?;
        let near = self.near.copy()?;
        Ok(Ledger { lines, near })
    }

    /// Makes this the ledger of the table. It takes no memory, and costs the number of file systems times its logarithm, and the length of their
    /// names.
    pub fn fill(&mut self, table: &Table)
        requires few { len (union_of (world_of table.now)) < 2 ^ 32 }
        ensures { self.new ≡ ledger_of (world_of table.now) }
    {
        table.facts();
        refill(&mut self.lines, table.file_systems());
        self.near.fill(table.file_systems());
        charge_all(table, &mut self.lines, &self.near);
    }

    /// The first limit that is broken, where `space` is what the pool has beside its file systems: Quota, else RefQuota, else NoSpace where the pool
    /// has no room for what is used, reserved, freeing and waiting; or none (zfsprops(7): quota, refquota, reservation; the order is profile). It
    /// costs the number of file systems.
    pub fn first_over(&self, space: Space) -> Option<Refusal>
        ensures { (s : State) → IsHierarchy s.now.file_systems → self.now ≡ ledger_of s.now → IsSpaceOf s space → result ≡ first_of (limit_row s) }
    {
        let mut are_in_refquotas = true;
        for line in &self.lines {
            if !line.is_in_quota() {
                return Some(Refusal::Quota);
            }
            are_in_refquotas = are_in_refquotas && line.is_in_refquota();
        }
        if !are_in_refquotas {
            return Some(Refusal::RefQuota);
        }
        let root = self.lines.first()?;
        if space.has_room(root.charge()) {
            None
        } else {
            Some(Refusal::NoSpace)
        }
    }

    /// What the file system of this name uses with all its descendants, in blocks (zfsprops(7): used). The file system is there, and this is the
    /// ledger of its table. It costs the logarithm of the number of file systems.
    pub fn used(&self, table: &Table, name: &DsName) -> u64
        requires there { IsSome (get table.now.file_systems name.now) }
        requires own { self.now ≡ ledger_of (world_of table.now) }
        ensures value { result ≡ used_of (world_of table.now) name.now }
        ensures small { result < 2 ^ 55 }
    {
        self.line(table, name.as_bytes()).used()
    }

    /// What the children of the file system of this name use, in blocks (zfsprops(7): usedbychildren). The file system is there, and this is the
    /// ledger of its table. It costs the logarithm of the number of file systems.
    pub fn used_by_children(&self, table: &Table, name: &DsName) -> u64
        requires there { IsSome (get table.now.file_systems name.now) }
        requires own { self.now ≡ ledger_of (world_of table.now) }
        ensures value { result ≡ used_by_children (world_of table.now) name.now }
        ensures small { result < 2 ^ 55 }
    {
        self.line(table, name.as_bytes()).children
    }

    /// How many blocks are available to the file system of this name (zfsprops(7): available). The file system is there, this is the ledger of its
    /// table, and `space` is what the pool has beside its file systems. It costs for each level of the name the logarithm of the number of file
    /// systems, and the length of the name.
    pub fn room(&self, table: &Table, name: &DsName, space: Space) -> u64
        requires there { IsSome (get table.now.file_systems name.now) }
        requires own { self.now ≡ ledger_of (world_of table.now) }
        ensures value { (s : State) → s.now.file_systems ≡ table.now.file_systems → IsSpaceOf s space → result ≡ room_of s name.now }
        ensures small { result < 2 ^ 55 }
    {
        table.facts();
        self.room_at(table, name.as_bytes(), &space)
    }

    // What `room` gives, computed from the root down the levels of the name.
    fn room_at(&self, table: &Table, name: &[u8], space: &Space) -> u64
        requires there { IsSome (get table.now.file_systems name.now) }
        requires own { self.now ≡ ledger_of (world_of table.now) }
        ensures value { (s : State) → s.now.file_systems ≡ table.now.file_systems → IsSpaceOf s space.now → result ≡ room_of s name.now }
        ensures most { result ≤ 2 ^ 32 + slashes name.now * 2 ^ 40 }
    {
        table.facts();
        let line = self.line(table, name);
        let room = match parent_of(name) {
            Some(parent) => self.room_at(table, parent, space) + line.unspent(),
            None => space.left(line.used()),
        };
        line.within_quota(room)
    }

    // The line of the file system of this name, which is there. It costs the logarithm of their number.
    fn line(&self, table: &Table, name: &[u8]) -> &Line
        requires there { IsSome (get table.now.file_systems name.now) }
        requires own { self.now ≡ ledger_of (world_of table.now) }
        ensures value { IfSome (get table.now.file_systems name.now) (λ f. result.now ≡ line_in (world_of table.now) (name.now, f)) }
        ensures small { IsSmall result.now }
    {
        let Some(place) = place_seen(table, name) else {
            unreachable!()
        };
        &self.lines[place]
    }
}
