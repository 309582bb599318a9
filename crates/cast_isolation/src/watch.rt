/// Is told how far a replay is.
pub trait Watch {
    /// So many events are to be applied.
    fn begin(&mut self, events: usize);

    /// One more was applied.
    fn applied(&mut self);
}

/// Nobody is told.
#[derive(Clone, Copy, Debug)]
pub struct Unwatched;

impl Watch for Unwatched {
    fn begin(&mut self, _events: usize) {}

    fn applied(&mut self) {}
}
