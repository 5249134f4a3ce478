//! A host behind a pointer that C stores.
ghost use Rattle.std.specs.Prelude.{◌≡◌, Option, Some, None, IsSome};
ghost use Rattle.std.specs.Coded.{coded_option};
ghost use Rattle.c_api.specs.declared.host.Host.{Host};
ghost use Rattle.c_api.specs.contracts.host.Host.{the_row};

use crate::host::Host;
use std::alloc::Global;
use std::marker::Model;
use std::ptr;

/// A pointer to a host, or a null pointer. Contracts see the host. C stores the pointer and never dereferences it.
#[repr(C)]
#[derive(Drop)]
pub struct Slot {
    held: *mut u8,
    pub ghost host: { Option Host } by { coded_option the_row.coded },
}

impl Model for Slot {
    ghost use Rattle.c_api.specs.Owned.{owns_if};

    ghost also_owns = { λ s. owns_if s.held s.host };
}

impl Slot {
    // A slot without a host.
    pub(crate) fn empty() -> Slot
        ensures { result.host ≡ None }
    {
        Slot {
            held: ptr::null_mut(),
        }
    }

    // A slot with this host.
    pub(crate) fn of(host: Box<Host>) -> Slot
        ensures { result.host ≡ Some host.value }
    {
        let at = Box::into_raw(host);
        Slot {
            held: at as *mut u8,
        }
    }

    // The host of a slot that has one.
    pub(crate) fn into_box(self, alloc: Global) -> Box<Host>
        requires { IsSome self.host }
        ensures { self.host ≡ Some result.value }
    {
        let Slot { held } = self;
        unsafe { Box::from_raw(alloc, held as *mut Host) }
    }
}
