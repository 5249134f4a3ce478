//! One world of a pool.
ghost use Rattle.std.specs.Prelude.{◌≡◌, None, IfOk, IfErr};
ghost use Rattle.std.specs.FinMap as finmap;
ghost use Rattle.std.specs.FinMap.{insert};
ghost use Rattle.std.specs.FinSet as set;
ghost use Rattle.base.specs.declared.refusal.Refusal.{Refusal};
ghost use Rattle.base.specs.Names.{root_name};
ghost use Rattle.model.specs.World.{empty_file_system};

use base::refusal::Refusal;
use datasets::Table;
use snap::Freeing;
use std::alloc::Global;
use steps::Ledger;

/// What a pool keeps of one world: its datasets, the blocks to be freed, and the ledger of its file systems. The ledger is None where no file
/// system has a limit.
pub(crate) struct World {
    pub(crate) table: Table,
    pub(crate) freeing: Freeing,
    pub(crate) ledger: Option<Ledger>,
}

// Written by hand, so that it is proved once: a derived `Drop` is expanded again in each crate that drops the type.
impl Drop for World {
    fn drop(self) {
        let World {
            table,
            freeing,
            ledger,
        } = self;
        drop(table);
        drop(freeing);
        drop(ledger);
    }
}

impl World {
    /// A world with the root file system alone, empty, in group 1. NoMemory where it can't be allocated.
    pub(crate) fn new(alloc: Global) -> Result<World, Refusal>
        ensures ok { IfOk result (λ w. w ≡ record { table = record { file_systems = insert finmap.empty root_name empty_file_system; group = 1 }; freeing = set.empty; ledger = None }) }
        ensures err { IfErr result (λ e. e ≡ Refusal.NoMemory) }
    {
        let table = Table::new(alloc)?;
        let freeing = Freeing::new(alloc);
        Ok(World {
            table,
            freeing,
            ledger: None,
        })
    }

    /// An equal world, which shares each file system and each chunk of the blocks to be freed by one more reference. NoMemory where the copy
    /// can't be allocated. It costs the number of file systems, and those chunks.
    pub(crate) fn copy(&self) -> Result<World, Refusal>
        ensures ok { IfOk result (λ w. w ≡ self.now) }
        ensures err { IfErr result (λ e. e ≡ Refusal.NoMemory) }
    {
        let table = self.table.copy()?;
        let freeing = self.freeing.copy()?;
        let ledger = copy_of(&self.ledger)?;
        Ok(World {
            table,
            freeing,
            ledger,
        })
    }
}

/// A copy of the ledger, where there is one. NoMemory where it can't be allocated. It costs the number of file systems.
pub(crate) fn copy_of(ledger: &Option<Ledger>) -> Result<Option<Ledger>, Refusal>
    ensures ok { IfOk result (λ l. l ≡ ledger.now) }
    ensures err { IfErr result (λ e. e ≡ Refusal.NoMemory) }
{
    match ledger {
        Some(ledger) => Ok(Some(ledger.copy()?)),
        None => Ok(None),
    }
}
