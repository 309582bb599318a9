use cast_types::{SiteNo, Source};

/// A site that acknowledges the messages of a source.
#[derive(Clone, Copy, Debug, PartialEq, Eq, PartialOrd, Ord)]
pub struct Witness {
    pub source: Source,
    pub site: SiteNo,
}
