//! Payloads that aren't `Copy`, which are taken by value.
#![tactic(auto, using(rr_ports::proofs::Frames::callers), unfolding(rr_ports::specs::Facts::Keeps, rr_ports::specs::Facts::IsFree))]

ghost use Rattle.std.specs.Prelude.{◌<◌, []};
ghost use Rattle.rr_protocol.specs.declared.kind.Kind.TheVariants as kind;
ghost use Rattle.rr_ports.specs.Facts.{Keeps, Names, numbers_left};

use rr_callers::connected::Connected;
use rr_callers::taking::taken;
use rr_ports::RequestSendError;
use rr_ports::typed::{Client, Hub, Server};

/// A service that answers numbers with texts.
type Texts = Hub<u64, u64, String, u64>;

/// Receives a request and sends a text.
fn answer(hub: &mut Texts, server: &Server<String>, text: String)
    requires server { Names hub.old server.now kind.Server }
    requires numbers { 1 < numbers_left hub.old }
    ensures { Keeps [] hub.old hub.new }
{
    if let Ok(Some(active)) = server.receive(hub) {
        let _ = active.send_copy(hub, text);
        active.release(hub);
    }
}

/// The results of two receives.
type Two = (Option<String>, Option<String>);

/// Asks, has the server answer, and takes what comes.
fn asked(
    hub: &mut Texts,
    client: &Client<u64>,
    server: &Server<String>,
    text: String,
) -> Result<Two, RequestSendError>
    requires client { Names hub.old client.now kind.Client }
    requires server { Names hub.old server.now kind.Server }
    requires numbers { 2 < numbers_left hub.old }
    ensures { Keeps [] hub.old hub.new }
{
    let pending = client.send_copy(hub, 1)?;
    answer(hub, server, text);
    let came = (taken(hub, &pending), taken(hub, &pending));
    pending.release(hub);
    Ok(came)
}

/// A text is taken as it was sent, once.
#[test]
fn a_text_is_taken_by_value(rt: HostRuntime) {
    let mut ports = Connected::new(rt.alloc()).expect(&rt, "ports");
    let text = String::from_str(rt.alloc(), "an answer").expect(&rt, "a text");
    let came = asked(&mut ports.hub, &ports.client, &ports.server, text);
    ports.end();
    let (first, second) = came.expect(&rt, "a pending response");
    assert_eq!(rt;
        (first.as_deref(), second.as_deref()),
        (Some("an answer"), None)
    );
}
