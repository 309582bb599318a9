/// The first two bytes of each frame, as one number.
pub(crate) const MAGIC: u16 = 0x4344;

/// The version of each frame, but for those whose message hands over the token.
pub(crate) const VERSION: u8 = 1;

/// The version of the frames whose message hands over the token.
pub(crate) const HANDING_VERSION: u8 = 2;
