//! The two families of messages.

/// Whether a message holds one element or a slice of them.
///
/// iceoryx2 distinguishes the two by the payload types `T` and `[T]`.
#[derive(Clone, Copy, Debug, PartialEq, Eq)]
pub enum Family {
    /// One element.
    Typed,
    /// As many elements as were loaned.
    Sliced,
}
