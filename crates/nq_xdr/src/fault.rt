//! What is wrong with bytes that are no item.

/// What is wrong with bytes that are not spelled as the item that was asked for.
#[derive(Clone, Copy)]
pub enum XdrFault {
    /// Fewer bytes are left than the item has.
    Short,
    /// The number of a boolean is neither 0 nor 1.
    Bool,
    /// The length of opaque data is above the bound that was given.
    TooLong,
    /// A residual byte of opaque data is not zero.
    Pad,
    /// Bytes are left after the last item.
    Trailing,
}
