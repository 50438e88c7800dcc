//! The history that a seat has seen, as calls of the message machine.
ghost use Rattle.std.specs.Prelude.{List};
ghost use Rattle.rr_shared_ports.specs.Words.{KeepsAnswerRule, PortEvent, empty_hub, Reads, calls_in};

use crate::{Header, Naming, Seat, SharedPorts};
use rr_ports::{BackpressureFn, Body, Hub};

impl<N: Naming, QB: Body, QH: Header, PB: Body, PH: Header, K: BackpressureFn> SharedPorts<
    N,
    Hub<QB, QH, PB, PH, K>,
> {
    /// Proves that the history that a seat has seen is legal: it can be read as calls of ports that lead from each
    /// state to the next, and in every such reading the calls keep the answer rule. Each response that a request
    /// received was loaned from an active request of that request and then sent, no response was received twice, and
    /// the responses of a server arrived in the order in which it sent them.
    ///
    /// Takes no lock, and does nothing when it runs. Not in iceoryx2.
    pub fn legal(&self, seat: &Seat<N, Hub<QB, QH, PB, PH, K>>)
        ensures calls { (readings : List (List (PortEvent K)))
            × Reads K.action QH.is_default PH.is_default (empty_hub N.limits N.node_id) seat.now.1 readings }
        ensures answer_rule { (readings : List (List (PortEvent K)))
            → Reads K.action QH.is_default PH.is_default (empty_hub N.limits N.node_id) seat.now.1 readings
            → KeepsAnswerRule N.limits (calls_in readings) }
    {
        let _ = &self.limits;
        let _ = &seat.seen;
    }
}
