//! What the names of a request stand for.
ghost use Rattle.std.specs.Prelude.{◌≡◌, ◌++◌, IfOk, IfErr, OnOk, map, nat_lt};
ghost use Rattle.std.specs.Arc.{arc_value};
ghost use Rattle.std.specs.List.{filter};
ghost use Rattle.base.specs.Names.{whole_length};
ghost use Rattle.model.specs.Targets.{name_limit};
ghost use Rattle.datasets.specs.Rows.{Row};
ghost use Rattle.snap.specs.Taking.{all_of};
ghost use Rattle.model.specs.Hierarchy.{is_in_family};

use crate::lengths::is_long;
use base::name::{Component, DsName, Member, SnapName};
use base::refusal::Refusal;
use datasets::{FileSystem, Table, is_in_family};
use std::alloc::Global;
use std::marker::Model;
use std::sync::Arc;

/// The name of a snapshot, borrowed from a request or a table. Contracts see the name.
#[derive(Drop)]
pub struct Named<'a> {
    pub file_system: &'a DsName,
    pub component: &'a Component,
}

impl<'a> Model for Named<'a> {
    ghost use Rattle.base.specs.declared.name.member.Member.{Member};

    ghost Value = { Member };

    ghost view = { λ n. record { file_system = n.file_system.now; component = n.component.now } };
}

impl<'a> Named<'a> {
    /// Whether the whole name, as `p/a@s`, has more than 255 bytes (zfs(8); the limit is profile). Constant time.
    pub(crate) fn is_too_long(&self) -> bool
        ensures { result ≡ nat_lt name_limit (whole_length self.now) }
    {
        is_long(self.file_system.as_bytes().len(), self.component)
    }
}

// Adds the name's component under each of these file systems that is the name's own or a descendant of it. NoMemory where there is none for
// that. It costs their number.
fn add_family<'a>(
    all: &mut Vec<Named<'a>>,
    file_systems: &'a [Arc<FileSystem>],
    name: &'a Member,
) -> Result<(), Refusal>
    ensures ok { OnOk result (all.new.items ≡ all.old.items ++ map (λ n. record name.now { file_system = n }) (filter (is_in_family name.now.file_system) (map (λ (r : Row). r.name) (map arc_value file_systems.now)))) }
    ensures err { IfErr result (λ e. e ≡ Refusal.NoMemory) }
{
    for file_system in file_systems {
        if is_in_family(name.file_system.as_bytes(), file_system.name().as_bytes()) {
            all.push(Named {
                file_system: file_system.name(),
                component: &name.component,
            })?;
        }
    }
    Ok(())
}

/// The snapshots that these names stand for. With `recursive` a name stands for a snapshot of its file system and of each descendant of it.
/// NoMemory where there is none for them. It costs the names, and with `recursive` each times the number of file systems.
pub fn expand<'a>(
    alloc: Global,
    table: &'a Table,
    names: &'a [SnapName],
    recursive: bool,
) -> Result<Vec<Named<'a>>, Refusal>
    ensures ok { IfOk result (λ all. all.items ≡ all_of table.now names.now recursive) }
    ensures err { IfErr result (λ e. e ≡ Refusal.NoMemory) }
{
    let mut all = Vec::with_capacity(alloc, names.len())?;
    for name in names {
        let member = name.member();
        if recursive {
            add_family(&mut all, table.file_systems(), member)?;
        } else {
            all.push(Named {
                file_system: &member.file_system,
                component: &member.component,
            })?;
        }
    }
    Ok(all)
}
