use cast_message::ClientFrame;

/// The bytes of the length at the front of a frame.
pub(crate) const LENGTH_BYTES: usize = 4;

/// Fewest bytes of a frame: its length and its type.
pub(crate) const MIN_CLIENT_FRAME: usize = 5;

/// What stands at the front of the bytes of a program or of its daemon.
#[derive(Drop)]
pub enum ClientRead {
    /// This frame, and of how many bytes it is.
    Frame(ClientFrame, usize),
    /// No whole frame: so many bytes are wanting before more can be said, at least 1.
    More(usize),
}
