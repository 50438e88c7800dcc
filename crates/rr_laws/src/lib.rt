//! Laws over every run of the message machine, as contracts of functions that do nothing.
#![tactic(auto)]

mod bounded;
mod expired;
mod ordered;
mod own_request;
mod port_answers;
mod unreduced;
mod whole;

pub use bounded::bound;
pub use expired::expired_lists;
pub use ordered::in_order;
pub use own_request::own_request_once;
pub use port_answers::port_answer_rule;
pub use unreduced::unreduced_pool;
pub use whole::whole_pool;
