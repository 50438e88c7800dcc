//! Conversions between the pointer that a C program holds and the hub, and the address of a slice. The proofs of
//! these functions are by hand.
ghost use Rattle.std.specs.Prelude.{◌≡◌};
ghost use Rattle.std.specs.Borrow.{sem};
ghost use Rattle.std.specs.Ptr.{as_ptr};
ghost use Rattle.rr_c.specs.Opening.{lends_hub};

use crate::held::{Held, Hub};
use crate::loose::Loose;
use std::alloc::Global;

/// Lends the hub.
#[inline(always)]
pub(crate) fn hub_in(held: &mut Held) -> &mut Hub
    ensures* lends { sem 𝓛 (lends_hub held.entry result) }
    ensures value { result.now ≡ held.old.hub }
{
    unsafe { &mut *(held.at as *mut Hub) }
}

/// Hands a hub over to a C program, which owns it afterwards.
pub(crate) fn address_of(hub: Box<Hub, Global>) -> *mut u8 {
    let (at, _alloc) = Box::into_raw_with_allocator(hub);
    at as *mut u8
}

/// Takes a hub back from a C program.
pub(crate) fn box_of(held: Held, alloc: Global) -> Box<Hub, Global>
    ensures { result.value ≡ held.hub }
{
    loose_of(held, alloc).into_box()
}

/// Gives the address of a hub its type again.
fn loose_of(held: Held, alloc: Global) -> Loose<Hub, Global>
    ensures { result.value ≡ held.hub }
{
    let Held { at } = held;
    Loose {
        at: at as *mut Hub,
        alloc,
    }
}

/// Returns the address of bytes.
#[inline(always)]
pub(crate) fn start_of(bytes: &[u8]) -> *const u8
    ensures { result ≡ as_ptr bytes.entry }
{
    bytes.as_ptr()
}
