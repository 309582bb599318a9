use cast_types::Uid;

/// The id of a message with the number of its key, ordered by id and then by number.
#[derive(Clone, Copy, Debug, PartialEq, Eq, PartialOrd, Ord)]
pub struct Entry {
    pub id: Uid,
    pub number: usize,
}
