//! The handle of a hub that a C program holds.
use rr_bytes::Bytes;
use std::marker::Model;

/// A hub, in a block of its own.
#[derive(Drop)]
pub(crate) struct Hub {
    pub(crate) bytes: Bytes,
}

ghost use Rattle.rr_c.specs.declared.held.Hub.{Hub as State};
ghost use Rattle.rr_c.specs.contracts.held.Hub.{the_row as hub_row};

/// The address of a hub. `rr_hub_create` writes it, and whoever holds it owns the hub.
#[repr(C)]
pub struct Held {
    pub(crate) at: *mut u8,
    pub(crate) ghost hub: { State } by { hub_row.coded },
}

impl Model for Held {
    ghost use Rattle.std.specs.Box.Ownership.{box_owns};
    ghost use Rattle.rr_c.specs.contracts.held.Hub.{the_row as hub_row};
    ghost use Rattle.rr_c.specs.Heap.{frees};

    ghost also_owns = { λ held. box_owns frees hub_row held.at held.hub };
}

// Another thread may use the hub that it owns.
unsafe impl Send for Held {}
