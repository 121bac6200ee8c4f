use thiserror::Error;

/// Why a packet has no segment that is read.
#[derive(Clone, Copy, Debug, PartialEq, Eq, Error)]
pub enum Unread {
    /// Its link type isn't read.
    #[error("link type {0}")]
    LinkType(u16),
    /// Its EtherType isn't read.
    #[error("EtherType {0:04x}")]
    EtherType(u16),
    /// Its IP protocol isn't read.
    #[error("IP protocol {0}")]
    Protocol(u8),
    /// It is a fragment of a datagram.
    #[error("fragment")]
    Fragment,
    /// One of its headers isn't all there, or contradicts itself.
    #[error("malformed")]
    Malformed,
}
