//! A ledger when a single file system has changed, is new or is gone: its own line changes, and `children` in the lines above it, up to the
//! first level whose charge stays the same.
ghost use Rattle.std.specs.Prelude.{◌≡◌, ◌<◌, ◌≤◌, ◌^◌, insert, vec_len, vec_capacity};
ghost use Rattle.std.specs.FinMap.{entries, keys};
ghost use Rattle.std.specs.FinSet as set;
ghost use Rattle.std.specs.List.{All};
ghost use Rattle.datasets.specs.Places.{IsAt, IsGapFor};
ghost use Rattle.model.specs.Hierarchy.{IsHierarchy};
ghost use Rattle.model.specs.World.{World, union_of};
ghost use Rattle.world.specs.Tables.{world_of};
ghost use Rattle.limits.specs.Changes.{IsModest, IsRecounted, CanWalkUp, IsBehind, bare_line, lines_under};
ghost use Rattle.limits.specs.Ledgers.{ledger_of};
ghost use Rattle.limits.specs.Lines.{used_in};

use crate::account::{Account, account_of};
use crate::change::settle_from;
use crate::ledger::Ledger;
use crate::line::Line;
use crate::place::{parent_place, place_of, place_seen};
use base::name::DsName;
use datasets::{FileSystem, Table, parent_of};
use model::limits::Limits;

impl Ledger {
    /// Updates the ledger of an earlier world to that of the table. The two differ at this name alone: the file system of this name has changed, is
    /// new, or is gone. It takes no memory. For each level of the name, up to the first one whose charge stays the same, it costs at most the
    /// logarithm of the number of file systems; beside that the length of the name, and where the file system is new or gone a move of the lines
    /// behind its own.
    pub fn recount(&mut self, table: &Table, name: &DsName)
        requires own { (old : World) × IsHierarchy old.file_systems × (self.old ≡ ledger_of old) × IsRecounted old (world_of table.now) name.now }
        requires few { set.len (union_of (world_of table.now)) < 2 ^ 32 }
        ensures { self.new ≡ ledger_of (world_of table.now) }
    {
        match place_of(table, name.as_bytes()) {
            Ok(place) => self.read(table, name, place),
            Err(gap) => self.leave(table, name, gap),
        }
    }

    // Recounts a file system that stands at this place of the table: it has changed, or it is new.
    fn read(&mut self, table: &Table, name: &DsName, place: usize)
        requires own { (old : World) × IsHierarchy old.file_systems × (self.old ≡ ledger_of old) × IsRecounted old (world_of table.now) name.now }
        requires few { set.len (union_of (world_of table.now)) < 2 ^ 32 }
        requires there { IsAt (entries table.now.file_systems) name.now place }
        ensures { self.new ≡ ledger_of (world_of table.now) }
    {
        table.facts();
        self.make_line(table, name, place);
        let file_system: &FileSystem = &table.file_systems()[place];
        let line = Line {
            account: account_of(file_system),
            children: self.lines[place].children,
        };
        self.settle_at(table, place, line);
    }

    // Inserts a line for the file system of this name, which stands at this place of the table, unless it has one.
    fn make_line(&mut self, table: &Table, name: &DsName, place: usize)
        requires own { (old : World) × IsHierarchy old.file_systems × (self.old ≡ ledger_of old) × IsRecounted old (world_of table.now) name.now }
        requires there { IsAt (entries table.now.file_systems) name.now place }
        ensures lines { (old : World) → self.old ≡ ledger_of old → IsRecounted old (world_of table.now) name.now → self.new ≡ lines_under old (keys table.now.file_systems) }
        ensures modest { All IsModest self.old }
    {
        table.facts();
        if self.lines.len() < table.file_systems().len() {
            insert_line(&mut self.lines, place);
            let parent = parent_place(table, place, table.near()).unwrap_or(0);
            self.near.open(place, parent);
        }
    }

    // Recounts a file system that the table hasn't, and that would stand at this place: removes its line, if there is one, and updates those above
    // it.
    fn leave(&mut self, table: &Table, name: &DsName, gap: usize)
        requires own { (old : World) × IsHierarchy old.file_systems × (self.old ≡ ledger_of old) × IsRecounted old (world_of table.now) name.now }
        requires gone { IsGapFor (entries table.now.file_systems) name.now gap }
        ensures { self.new ≡ ledger_of (world_of table.now) }
    {
        table.facts();
        if self.lines.len() == table.file_systems().len() {
            return;
        }
        let gone = self.lines.remove(gap);
        self.near.close(gap);
        let Some(parent) = parent_of(name.as_bytes()) else {
            unreachable!()
        };
        let Some(place) = place_seen(table, parent) else {
            unreachable!()
        };
        let above = self.lines[place];
        let line = Line {
            account: above.account,
            children: above.children - gone.charge(),
        };
        self.settle_at(table, place, line);
    }

    // Puts this line at its place, and updates those above it.
    fn settle_at(&mut self, table: &Table, place: usize, line: Line)
        requires can { CanWalkUp (keys table.now.file_systems) self.old place line }
        requires little { All (λ l. used_in l ≤ 2 ^ 54) self.old }
        ensures { (new : World) → IsBehind new (keys table.now.file_systems) self.old place line → self.new ≡ ledger_of new }
    {
        settle_from(table, &mut self.lines, &self.near, place, line);
    }
}

// Inserts an empty line at this place; there is room for it. It costs the number of lines.
fn insert_line(lines: &mut Vec<Line>, place: usize)
    requires room { vec_len lines.old < vec_capacity lines.old }
    requires within { place ≤ vec_len lines.old }
    ensures is { lines.new.items ≡ insert lines.old.items place bare_line }
    ensures kept { vec_capacity lines.new ≡ vec_capacity lines.old }
{
    let line = Line {
        account: Account {
            here: 0,
            referenced: 0,
            limits: Limits::none(),
        },
        children: 0,
    };
    let Ok(()) = lines.insert(place, line) else {
        unreachable!()
    };
}
