//! The typed family, in which each message has one element.
mod active_request;
mod client;
mod exchange;
mod receiving;
mod response;
mod writing;

/// A shared hub whose requests and responses are single values.
pub type SharedPorts<N, Q, QH, P, PH, K = rr_ports::NoHandler> = crate::SharedPorts<
    N,
    rr_ports::typed::Hub<Q, QH, P, PH, K>,
>;

/// Such a hub that has no name yet.
pub type Opened<Q, QH, P, PH, K = rr_ports::NoHandler> = crate::Opened<
    rr_ports::typed::Hub<Q, QH, P, PH, K>,
>;

/// A caller of such a hub.
pub type Seat<N, Q, QH, P, PH, K = rr_ports::NoHandler> = crate::Seat<
    N,
    rr_ports::typed::Hub<Q, QH, P, PH, K>,
>;

/// A client whose requests are single values.
pub type Client<N, Q> = crate::Claimed<N, rr_ports::typed::Client<Q>>;

/// A server whose responses are single values.
pub type Server<N, P> = crate::Claimed<N, rr_ports::typed::Server<P>>;

/// A request of one value that was sent.
pub type PendingResponse<N, Q> = crate::Claimed<N, rr_ports::typed::PendingResponse<Q>>;

/// A request of one value that a server received.
pub type ActiveRequest<N, Q> = crate::Claimed<N, rr_ports::typed::ActiveRequest<Q>>;

/// A response of one value that was received.
pub type Response<N, P> = crate::Claimed<N, rr_ports::typed::Response<P>>;

/// A request of one value that is on loan, and whose value is to be written.
pub type RequestMutUninit<N, Q> = crate::Claimed<N, rr_ports::typed::RequestMutUninit<Q>>;

/// A request of one value that can be sent.
pub type RequestMut<N, Q> = crate::Claimed<N, rr_ports::typed::RequestMut<Q>>;

/// A response of one value that is on loan, and whose value is to be written.
pub type ResponseMutUninit<N, P> = crate::Claimed<N, rr_ports::typed::ResponseMutUninit<P>>;

/// A response of one value that can be sent.
pub type ResponseMut<N, P> = crate::Claimed<N, rr_ports::typed::ResponseMut<P>>;
