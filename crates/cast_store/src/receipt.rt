use cast_types::Uid;

/// That a message was received: its number in its domain, counted from 0, the key of its slot, its
/// id, and whether it is an ABCAST.
#[derive(Clone, Copy)]
pub(crate) struct Receipt {
    pub(crate) number: usize,
    pub(crate) slot: usize,
    pub(crate) id: Uid,
    pub(crate) atomic: bool,
}
