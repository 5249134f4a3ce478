//! The handle of a pool.
ghost use Rattle.std.specs.Prelude.{◌≡◌, Some, None, is_some};
ghost use Rattle.std.specs.Option.{option_map};

use crate::host::Host;
use crate::slot::Slot;
use std::alloc::Global;
use std::mem;

/// A pool's handle, as C stores it: `yuz_pool` of the header. It is zero at first, and only the calls of this crate write it.
#[repr(C)]
#[derive(Drop)]
pub struct YuzPool {
    is_open: bool,
    pub slot: Slot,
    ghost fits: { is_open ≡ is_some slot.host },
}

impl YuzPool {
    /// A handle without a pool, as a zeroed handle in C is.
    pub fn closed() -> YuzPool
        ensures { result.slot.host ≡ None }
    {
        YuzPool {
            is_open: false,
            slot: Slot::empty(),
        }
    }

    // Takes the host out of the handle, which has none afterwards. None where it had none.
    pub(crate) fn take(&mut self, alloc: Global) -> Option<Box<Host>>
        ensures taken { option_map (λ b. b.value) result ≡ self.old.slot.host }
        ensures left { self.new.slot.host ≡ None }
    {
        let taken = mem::replace(self, YuzPool::closed());
        if taken.is_open {
            Some(taken.slot.into_box(alloc))
        } else {
            None
        }
    }

    // Puts this host into a handle that has none.
    pub(crate) fn put(&mut self, host: Box<Host>)
        requires { self.old.slot.host ≡ None }
        ensures { self.new.slot.host ≡ Some host.value }
    {
        *self = YuzPool {
            is_open: true,
            slot: Slot::of(host),
        };
    }
}
