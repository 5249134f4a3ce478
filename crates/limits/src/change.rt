//! A ledger when the account of a single file system changes: its own line changes, and `children` in the lines above it, up to the first level
//! whose charge stays the same.
ghost use Rattle.std.specs.Prelude.{◌≡◌, ◌<◌, ◌≤◌, ◌^◌, ℕ, Some, IsSome, IfSome, IfNone, IfOk, IfErr, length, slice_index_or};
ghost use Rattle.std.specs.FinMap.{get, keys, len};
ghost use Rattle.std.specs.List.{All};
ghost use Rattle.base.specs.declared.refusal.Refusal.{Refusal};
ghost use Rattle.model.specs.Hierarchy.{IsHierarchy};
ghost use Rattle.model.specs.Rule.{first_of};
ghost use Rattle.model.specs.State.{State};
ghost use Rattle.model.specs.World.{World};
ghost use Rattle.model.specs.requests.Change.{limit_row};
ghost use Rattle.world.specs.Tables.{world_of};
ghost use Rattle.limits.specs.Limits.{AreQuotasMet};
ghost use Rattle.limits.specs.Lines.{used_in, charge_in, IsSmall};
ghost use Rattle.limits.specs.Ledgers.{ledger_of, IsSpaceOf};
ghost use Rattle.limits.specs.Places.{IsParentAt};
ghost use Rattle.limits.specs.Changes.{IsChanged, IsModest, IsNext, IsTop, IsWithinQuotas, IsOverQuota, IsLedgerOf, CanWalkUp, IsBehind, amended, line_with};

use crate::account::Account;
use crate::ledger::Ledger;
use crate::line::Line;
use crate::near::Near;
use crate::place::{parent_place, place_seen};
use crate::pool_space::Space;
use base::name::DsName;
use base::refusal::Refusal;
use datasets::Table;

impl Ledger {
    /// The limit that would be broken if the account of the file system of this name had this `here` and `referenced`, in blocks: Quota, else
    /// RefQuota, else NoSpace; or none (zfsprops(7): quota, refquota, reservation; the order is profile). The file system is there, this is the
    /// ledger of its table, the quotas and refquotas of the table are met, and `space` is what the pool has beside its file systems. Nothing
    /// changes. It costs for each level of the name at most the logarithm of the number of file systems, and the length of the name.
    pub fn over_after(
        &self,
        table: &Table,
        name: &DsName,
        here: u64,
        referenced: u64,
        space: Space,
    ) -> Option<Refusal>
        requires there { IsSome (get table.now.file_systems name.now) }
        requires own { self.now ≡ ledger_of (world_of table.now) }
        requires small { here < 2 ^ 42 }
        ensures { (s : State) → IsChanged (world_of table.now) s.now name.now here referenced → AreQuotasMet (world_of table.now) → IsSpaceOf s space → result ≡ first_of (limit_row s) }
    {
        match charge_after(table, &self.lines, &self.near, name, here, referenced) {
            Ok(charge) if space.has_room(charge) => None,
            Ok(_) => Some(Refusal::NoSpace),
            Err(refusal) => Some(refusal),
        }
    }

    /// Sets `here` and `referenced`, in blocks, in the account of the file system of this name, which is there, and updates the lines above it. This
    /// is the ledger of a world with the names of the table, and becomes that of every world that differs from that one in this alone. Only names
    /// are read from the table, so it may be the one from before the change or from after it. It costs for each level of the name at most the
    /// logarithm of the number of file systems, and the length of the name.
    pub fn settle(&mut self, table: &Table, name: &DsName, here: u64, referenced: u64)
        requires there { IsSome (get table.now.file_systems name.now) }
        requires own { (old : World) × IsLedgerOf old (keys table.now.file_systems) self.old }
        requires small { here < 2 ^ 42 }
        ensures { (old new : World) → IsHierarchy old.file_systems → keys old.file_systems ≡ keys table.now.file_systems → self.old ≡ ledger_of old → IsChanged old new name.now here referenced → self.new ≡ ledger_of new }
    {
        settle_lines(table, &mut self.lines, &self.near, name, here, referenced);
    }
}

// A copy of this line with `here` and `referenced` replaced. Constant time.
fn amended(line: &Line, here: u64, referenced: u64) -> Line
    ensures { result ≡ amended line.now here referenced }
{
    Line {
        account: Account {
            here,
            referenced,
            limits: line.account.limits,
        },
        children: line.children,
    }
}

// A copy of the line at this place with `children` replaced. Constant time.
fn line_with(lines: &[Line], place: usize, children: u64) -> Line
    requires { place < length lines.now }
    ensures { result ≡ line_with lines.now place children }
{
    Line {
        account: lines[place].account,
        children,
    }
}

// The next line that changes once the line at this place is charged `after`: the place of the parent's line, and its new `children`. None where
// the charge stays the same, or there is no parent. It costs the logarithm of the number of file systems, and the length of the name.
fn next_change(
    table: &Table,
    lines: &[Line],
    near: &Near,
    place: usize,
    after: u64,
) -> Option<(usize, u64)>
    requires long { length lines.now ≡ len table.now.file_systems }
    requires within { place < length lines.now }
    requires little { All (λ l. used_in l ≤ 2 ^ 54) lines.now }
    requires small { after ≤ 2 ^ 55 }
    requires counted { (parent : ℕ) (d : Line) → IsParentAt (keys table.now.file_systems) place parent → charge_in (slice_index_or lines.now place d) ≤ (slice_index_or lines.now parent d).children }
    ensures some { IfSome result (λ next. (line : Line) → charge_in line ≡ after → IsNext (keys table.now.file_systems) lines.now place line (next.0, line_with lines.now next.0 next.1)) }
    ensures none { IfNone result ((line : Line) → charge_in line ≡ after → IsTop (keys table.now.file_systems) lines.now place line) }
{
    let before = lines[place].charge();
    if before == after {
        return None;
    }
    let parent = parent_place(table, place, near.parent(place))?;
    Some((parent, lines[parent].children - before + after))
}

// The charge of the root, once this line stands at this place and no line above it changes. Constant time.
fn root_charge(lines: &[Line], place: usize, line: &Line) -> u64
    requires there { 0 < length lines.now }
    requires little { All (λ l. used_in l ≤ 2 ^ 54) lines.now }
    requires small { IsSmall line.now }
    ensures own { place ≡ 0 → result ≡ charge_in line.now }
    ensures other { ¬ (place ≡ 0) → result ≡ charge_in (slice_index_or lines.now 0 line.now) }
{
    if place == 0 {
        line.charge()
    } else {
        lines[0].charge()
    }
}

// The charge of the root after a change of an account; these are the lines of the table's ledger. Quota where a quota would be broken, else
// RefQuota where a refquota would be.
fn charge_after(
    table: &Table,
    lines: &[Line],
    near: &Near,
    name: &DsName,
    here: u64,
    referenced: u64,
) -> Result<u64, Refusal>
    requires there { IsSome (get table.now.file_systems name.now) }
    requires own { lines.now ≡ ledger_of (world_of table.now) }
    requires modest { All IsModest lines.now }
    requires small { here < 2 ^ 42 }
    ensures ok { IfOk result (λ charge. (new : World) → IsChanged (world_of table.now) new name.now here referenced → AreQuotasMet (world_of table.now) → IsWithinQuotas new charge) }
    ensures err { IfErr result (λ e. (new : World) → IsChanged (world_of table.now) new name.now here referenced → AreQuotasMet (world_of table.now) → IsOverQuota new e) }
{
    table.facts();
    let Some(start) = place_seen(table, name.as_bytes()) else {
        unreachable!()
    };
    let own = amended(&lines[start], here, referenced);
    let mut place = start;
    let mut line = own;
    loop {
        if !line.is_in_quota() {
            return Err(Refusal::Quota);
        }
        let Some((parent, children)) = next_change(table, lines, near, place, line.charge()) else {
            if own.is_in_refquota() {
                return Ok(root_charge(lines, place, &line));
            }
            return Err(Refusal::RefQuota);
        };
        place = parent;
        line = line_with(lines, parent, children);
    }
}

// Turns the lines of the ledger of a world with the names of the table into those of every world that differs in this account alone.
fn settle_lines(
    table: &Table,
    lines: &mut [Line],
    near: &Near,
    name: &DsName,
    here: u64,
    referenced: u64,
)
    requires there { IsSome (get table.now.file_systems name.now) }
    requires own { (old : World) × IsLedgerOf old (keys table.now.file_systems) lines.old }
    requires modest { All IsModest lines.old }
    requires small { here < 2 ^ 42 }
    ensures own { (old new : World) → IsLedgerOf old (keys table.now.file_systems) lines.old → IsChanged old new name.now here referenced → lines.new ≡ ledger_of new }
    ensures modest { All IsModest lines.new }
    ensures little { All (λ l. used_in l ≤ 2 ^ 54) lines.new }
{
    let Some(start) = place_seen(table, name.as_bytes()) else {
        unreachable!()
    };
    let line = amended(&lines[start], here, referenced);
    settle_from(table, lines, near, start, line);
}

// Puts this line at its place, and updates `children` in the lines above it. Lines that differ in this alone from the ledger of a world with the
// names of the table become that ledger. It costs for each level of the name at most the logarithm of the number of file systems, and the length
// of the name.
pub(crate) fn settle_from(table: &Table, lines: &mut [Line], near: &Near, place: usize, line: Line)
    requires can { CanWalkUp (keys table.now.file_systems) lines.old place line }
    requires modest { All IsModest lines.old }
    requires little { All (λ l. used_in l ≤ 2 ^ 54) lines.old }
    ensures own { (new : World) → IsBehind new (keys table.now.file_systems) lines.old place line → lines.new ≡ ledger_of new }
    ensures modest { All IsModest lines.new }
    ensures little { All (λ l. used_in l ≤ 2 ^ 54) lines.new }
{
    let next = next_change(table, lines, near, place, line.charge());
    lines[place] = line;
    if let Some((parent, children)) = next {
        settle_above(table, lines, near, parent, children);
    }
}

// Sets `children` in the line at this place, and updates it in the lines above. Lines that differ in this alone from the ledger of a world with
// the names of the table become that ledger.
fn settle_above(table: &Table, lines: &mut [Line], near: &Near, place: usize, children: u64)
    requires can { CanWalkUp (keys table.now.file_systems) lines.old place (line_with lines.old place children) }
    requires modest { All IsModest lines.old }
    requires little { All (λ l. used_in l ≤ 2 ^ 54) lines.old }
    ensures own { (new : World) → IsBehind new (keys table.now.file_systems) lines.old place (line_with lines.old place children) → lines.new ≡ ledger_of new }
    ensures modest { All IsModest lines.new }
    ensures little { All (λ l. used_in l ≤ 2 ^ 54) lines.new }
{
    let mut place = place;
    let mut children = children;
    loop {
        let after = line_with(lines, place, children).charge();
        let next = next_change(table, lines, near, place, after);
        lines[place].children = children;
        let Some((parent, above)) = next else {
            return;
        };
        place = parent;
        children = above;
    }
}
