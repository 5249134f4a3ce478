//! Makes the lines of a ledger, and adds up in them what children use.
ghost use Rattle.std.specs.Prelude.{◌≡◌, ◌<◌, ◌≤◌, ◌+◌, ◌^◌, length, map};
ghost use Rattle.std.specs.Arc.{arc_value};
ghost use Rattle.std.specs.FinMap.{len};
ghost use Rattle.std.specs.List.{All};
ghost use Rattle.std.specs.Option.{unwrap_or};
ghost use Rattle.world.specs.Trees.{total};
ghost use Rattle.limits.specs.Rows.{own_in, account_at};
ghost use Rattle.limits.specs.Charges.{fresh, IsCharged};

use crate::account::account_of;
use crate::line::Line;
use crate::near::Near;
use crate::place::parent_place;
use datasets::{FileSystem, Table};
use std::sync::Arc;

/// Replaces the lines with those of these file systems, with no child charged yet. There is room for them. It costs their number.
pub fn refill(lines: &mut Vec<Line>, file_systems: &[Arc<FileSystem>])
    requires room { length file_systems.now ≤ lines.old.cap }
    requires few { total own_in (map arc_value file_systems.now) < 2 ^ 32 }
    ensures ok { lines.new.items ≡ map fresh (map account_at (map arc_value file_systems.now)) }
    ensures small { All (λ a. a.here < 2 ^ 42) (map account_at (map arc_value file_systems.now)) }
    ensures modest { All (λ a. unwrap_or a.limits.reservation 0 ≤ 2 ^ 40) (map account_at (map arc_value file_systems.now)) }
    ensures kept { lines.new.cap ≡ lines.old.cap }
{
    lines.clear();
    for file_system in file_systems {
        lines.push_reserved(Line {
            account: account_of(file_system),
            children: 0,
        });
    }
}

/// Adds the charge of each line to `children` in its parent's line, from the last line to the first, since a child stands after its parent. The
/// parent is looked for at its place in `near` first. It costs the number of file systems, times its logarithm where no parent stands there, and
/// the length of the names.
pub fn charge_all(table: &Table, lines: &mut [Line], near: &Near)
    requires long { length lines.old ≡ len table.now.file_systems }
    requires none { IsCharged table.now.file_systems (length lines.old) lines.old }
    ensures charged { IsCharged table.now.file_systems 0 lines.new }
    ensures accounts { map (λ l. l.account) lines.new ≡ map (λ l. l.account) lines.old }
{
    for place in (0..lines.len()).rev() {
        charge(table, lines, place, near);
    }
}

// Adds the charge of the line at this place to `children` in its parent's line. It costs the logarithm of the number of file systems, and the
// length of the name.
fn charge(table: &Table, lines: &mut [Line], place: usize, near: &Near)
    requires long { length lines.old ≡ len table.now.file_systems }
    requires within { place < length lines.old }
    requires later { IsCharged table.now.file_systems (place + 1) lines.old }
    ensures charged { IsCharged table.now.file_systems place lines.new }
    ensures accounts { map (λ l. l.account) lines.new ≡ map (λ l. l.account) lines.old }
{
    let amount = lines[place].charge();
    if let Some(parent) = parent_place(table, place, near.parent(place)) {
        let line = &mut lines[parent];
        line.children += amount;
    }
}
