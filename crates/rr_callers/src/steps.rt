//! Proofs of callers about calls as changes of the message machine, which is how a contract sees a hub.
#![tactic(auto)]

ghost use Rattle.std.specs.Prelude.{◌≡◌, ◌<◌};
ghost use Rattle.rr_protocol.specs.declared.kind.Kind.TheVariants as kind;
ghost use Rattle.rr_ports.specs.Facts.{Names, numbers_left};
ghost use Rattle.rr_ports.specs.Sending.{SendsPending};
ghost use Rattle.rr_ports.specs.Shortcuts.{HearsCopy, ReceivesCopy, TellsCopy};
ghost use Rattle.rr_protocol.specs.Messages.{with_hint};
ghost use Rattle.rr_protocol.specs.Receives.{ReceivesRequest, ReceivesResponse};
ghost use Rattle.rr_protocol.specs.Releases.{after_release};
ghost use Rattle.rr_protocol.specs.Sends.{SendsResponse};
ghost use Rattle.rr_protocol.specs.State.{with_changed};

use rr_ports::{
    ActiveRequest, BackpressureFn, Client, Hub, PendingResponse, ReceiveError, RequestMut,
    RequestSendError, Response, ResponseMut, SendError, Server,
};
use rr_slots::Body;

/// Sends a request, and promises the message machine's step for it.
pub fn sent<QB: Body, QH: Default + Drop, PB: Body, PH: Default + Drop, K: BackpressureFn>(
    hub: &mut Hub<QB, QH, PB, PH, K>,
    request: RequestMut<QB>,
) -> Result<PendingResponse<QB>, RequestSendError>
    requires { Names hub.old request kind.RequestMut }
    ensures { SendsPending K.action hub.old request result hub.new }
{
    request.send(hub)
}

/// Sends a response, and promises the message machine's step for it.
pub fn responded<QB: Body, QH: Default + Drop, PB: Body, PH: Default + Drop, K: BackpressureFn>(
    hub: &mut Hub<QB, QH, PB, PH, K>,
    response: ResponseMut<PB>,
) -> Result<(), SendError>
    requires { Names hub.old response kind.ResponseMut }
    ensures { SendsResponse K.action hub.old response result hub.new }
{
    response.send(hub)
}

/// Receives a request, and promises the message machine's step for it.
pub fn heard<QB: Body, QH: Default + Drop, PB: Body, PH: Default + Drop, K: BackpressureFn>(
    hub: &mut Hub<QB, QH, PB, PH, K>,
    server: &Server<PB>,
) -> Result<Option<ActiveRequest<QB>>, ReceiveError>
    requires server { Names hub.old server.now kind.Server }
    requires number { 0 < numbers_left hub.old }
    ensures { ReceivesRequest hub.old server.now result hub.new }
{
    server.receive(hub)
}

/// Receives a response, and promises the message machine's step for it.
pub fn answered<QB: Body, QH: Default + Drop, PB: Body, PH: Default + Drop, K: BackpressureFn>(
    hub: &mut Hub<QB, QH, PB, PH, K>,
    pending: &PendingResponse<QB>,
) -> Result<Option<Response<PB>>, ReceiveError>
    requires { Names hub.old pending.now kind.PendingResponse }
    ensures { ReceivesResponse hub.old pending.now result hub.new }
{
    pending.receive(hub)
}

/// Sets the hint of a pending response, and promises that nothing else changes.
pub fn hinted<QB: Body, QH: Default + Drop, PB: Body, PH: Default + Drop, K: BackpressureFn>(
    hub: &mut Hub<QB, QH, PB, PH, K>,
    pending: &PendingResponse<QB>,
)
    requires { Names hub.old pending.now kind.PendingResponse }
    ensures { hub.new ≡ with_changed hub.old pending.now with_hint }
{
    pending.set_disconnect_hint(hub);
}

/// Releases an active request, and promises the message machine's state after it.
pub fn ended<QB: Body, QH: Default + Drop, PB: Body, PH: Default + Drop, K: BackpressureFn>(
    hub: &mut Hub<QB, QH, PB, PH, K>,
    active: ActiveRequest<QB>,
)
    requires { Names hub.old active kind.ActiveRequest }
    ensures { hub.new ≡ after_release hub.old active }
{
    active.release(hub);
}

/// Tells a value, and promises that it is sent and its pending response released, or refused like a send.
pub fn told<T: Drop, QH: Default + Drop, PB: Body, PH: Default + Drop, K: BackpressureFn>(
    hub: &mut Hub<Option<T>, QH, PB, PH, K>,
    client: &Client<Option<T>>,
    value: T,
) -> Result<(), RequestSendError>
    requires client { Names hub.old client.now kind.Client }
    requires number { 0 < numbers_left hub.old }
    ensures { TellsCopy QH.is_default K.action hub.old client.now value result hub.new }
{
    client.tell(hub, value)
}

/// Receives a request's value, and promises that the request is received and released, or refused like a receive.
pub fn heard_copy<T: Copy, QH: Default + Drop, PB: Body, PH: Default + Drop, K: BackpressureFn>(
    hub: &mut Hub<Option<T>, QH, PB, PH, K>,
    server: &Server<PB>,
) -> Result<Option<T>, ReceiveError>
    requires server { Names hub.old server.now kind.Server }
    requires number { 0 < numbers_left hub.old }
    ensures { HearsCopy hub.old server.now result hub.new }
{
    server.receive_copy(hub)
}

/// Receives a response's value, and promises that the response is received and released, or refused like a receive.
pub fn answered_copy<QB: Body, QH: Default + Drop, T: Copy, PH: Default + Drop, K: BackpressureFn>(
    hub: &mut Hub<QB, QH, Option<T>, PH, K>,
    pending: &PendingResponse<QB>,
) -> Result<Option<T>, ReceiveError>
    requires { Names hub.old pending.now kind.PendingResponse }
    ensures { ReceivesCopy hub.old pending.now result hub.new }
{
    pending.receive_copy(hub)
}
