//! Copies of payloads.
ghost use Rattle.std.specs.Prelude.{◌≡◌, ◌≢◌, ◌<◌, length, IfOk, OnErr};
ghost use Rattle.rr_slots.specs.declared.family.Family.{Family};
ghost use Rattle.rr_protocol.specs.declared.command.Command.{Command};
ghost use Rattle.rr_protocol.specs.Step.{Step};
ghost use Rattle.rr_run.specs.Memory.{MayLackMemory};

use crate::runner::replies::refused;
use rr_hub::{Core, HandleId};
use rr_protocol::{BackpressureFn, Elements, Reply};
use rr_slots::WriteBody;
use std::alloc::{AllocError, Global};

/// Returns a handle's elements, or `NoMemory` if there are several and there was no memory for a copy.
pub(crate) fn payload<
    T: Copy + Default,
    B: WriteBody<Item = T>,
    H: Copy + Default,
    K: BackpressureFn,
>(core: &Core<B, H, B, H, K>, alloc: Global, id: &HandleId) -> Reply<T, H>
    ensures step { Step K.action T.is_default H.is_default B.family core.now (Command.Payload id.now) result core.now }
    ensures memory { result ≡ Reply.NoMemory → MayLackMemory B.family core.now (Command.Payload id.now) }
{
    match rr_checked::body(core, id) {
        Ok(body) => match elements_of(alloc, body) {
            Ok(elements) => Reply::Payload(elements),
            Err(_) => Reply::NoMemory,
        },
        Err(refusal) => refused(refusal),
    }
}

/// Returns a copy of a body's elements, or an error if there are several and there was no memory for them.
fn elements_of<T: Copy, B: WriteBody<Item = T>>(
    alloc: Global,
    body: &B,
) -> Result<Elements<T>, AllocError>
    ensures ok { IfOk result (λ elements. elements ≡ B.elements body.now) }
    ensures several { OnErr result (1 < length (B.elements body.now)) }
    ensures sliced { OnErr result (B.family ≢ Family.Typed) }
{
    if body.len() == 1 {
        return Ok(Elements::from([*body.get(0)]));
    }
    Ok(Elements::from(vector_of(alloc, body)?))
}

/// Returns a copy of a body's elements, in a vector, or an error if there are any and there was no memory for them.
fn vector_of<T: Copy, B: WriteBody<Item = T>>(alloc: Global, body: &B) -> Result<Vec<T>, AllocError>
    ensures ok { IfOk result (λ elements. elements.items ≡ B.elements body.now) }
    ensures some { OnErr result (0 < length (B.elements body.now)) }
{
    let mut items = Vec::new(alloc);
    items.reserve(body.len())?;
    for index in 0..body.len() {
        items.push_reserved(*body.get(index));
    }
    Ok(items)
}
