//! Tests of the ports, of what no proof shows. The contracts say what each call returns; a test shows that there is
//! memory, and that values and texts are those of iceoryx2.
//!
//! - The vectors of iceoryx2's documents, of single values (`vectors`) and of slices (`slices`).
//! - Handlers of full queues, set through the factories of ports (`handlers`).
//! - Limits by the settings of factories: loans for each request, 0 counted as 1, and pools of few slots (`pools`).
//! - A value that is kept in its slot stays in it (`kept`).
//! - A payload that isn't `Copy` is taken by value, once (`texts`).
//! - The settings that builders make, and their defaults (`builders`).
//! - How a port is printed and compared, which hub holds it, and that a hub goes to another thread (`hubs`).
mod builders;
mod fixtures;
mod handlers;
mod hubs;
mod kept;
mod pools;
mod slices;
mod texts;
mod vectors;
