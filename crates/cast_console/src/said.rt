use cast_pool::Done;
use cast_types::NoMemory;

/// What comes of a line.
#[derive(Drop)]
pub struct Answer {
    /// The lines of the answer, parted by line feeds, without a last one.
    pub text: Result<String, NoMemory>,
    /// What the serving of the line's event gave, where it has one.
    pub done: Option<Done>,
}
