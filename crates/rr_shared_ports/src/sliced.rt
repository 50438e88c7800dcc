//! The sliced family, in which each message is a slice.
mod active_request;
mod client;
mod parts;
mod response;
mod writing;

/// A shared hub whose requests and responses are slices.
pub type SharedPorts<N, Q, QH, P, PH, K = rr_ports::NoHandler> = crate::SharedPorts<
    N,
    rr_ports::sliced::Hub<Q, QH, P, PH, K>,
>;

/// Such a hub that has no name yet.
pub type Opened<Q, QH, P, PH, K = rr_ports::NoHandler> = crate::Opened<
    rr_ports::sliced::Hub<Q, QH, P, PH, K>,
>;

/// A caller of such a hub.
pub type Seat<N, Q, QH, P, PH, K = rr_ports::NoHandler> = crate::Seat<
    N,
    rr_ports::sliced::Hub<Q, QH, P, PH, K>,
>;

/// A client whose requests are slices.
pub type Client<N, Q> = crate::Claimed<N, rr_ports::sliced::Client<Q>>;

/// A server whose responses are slices.
pub type Server<N, P> = crate::Claimed<N, rr_ports::sliced::Server<P>>;

/// A request of a slice that was sent.
pub type PendingResponse<N, Q> = crate::Claimed<N, rr_ports::sliced::PendingResponse<Q>>;

/// A request of a slice that a server received.
pub type ActiveRequest<N, Q> = crate::Claimed<N, rr_ports::sliced::ActiveRequest<Q>>;

/// A response of a slice that was received.
pub type Response<N, P> = crate::Claimed<N, rr_ports::sliced::Response<P>>;

/// A request of a slice that is on loan, and whose elements are to be written.
pub type RequestMutUninit<N, Q> = crate::Claimed<N, rr_ports::sliced::RequestMutUninit<Q>>;

/// A request of a slice that can be sent.
pub type RequestMut<N, Q> = crate::Claimed<N, rr_ports::sliced::RequestMut<Q>>;

/// A response of a slice that is on loan, and whose elements are to be written.
pub type ResponseMutUninit<N, P> = crate::Claimed<N, rr_ports::sliced::ResponseMutUninit<P>>;

/// A response of a slice that can be sent.
pub type ResponseMut<N, P> = crate::Claimed<N, rr_ports::sliced::ResponseMut<P>>;
