// What a client supports.

use crate::PositionEncoding;

/// What a client supports, as far as the server makes use of it.
#[derive(Clone, Copy, Debug, PartialEq, Eq)]
pub struct Client {
    /// The position encoding of the session.
    pub encoding: PositionEncoding,
    /// Whether the client accepts diagnostics with related places.
    pub accepts_related: bool,
}
