//! Requests for memory of their own, which decide what request of the calls is the refused one.
use std::alloc::Global;

// Whether a request for memory is granted. The memory is given back.
fn is_granted(alloc: Global) -> bool {
    let mut bytes: Vec<u8> = Vec::new(alloc);
    bytes.push(1).is_ok()
}

/// Asks for memory until that is refused, at most so many times. Answers how many requests were
/// granted.
pub fn granted(alloc: Global, most: u32) -> u32 {
    for count in 0..most {
        if !is_granted(alloc) {
            return count;
        }
    }
    most
}

/// The pause before the calls that are judged.
#[derive(Drop)]
pub struct Pause {
    requests: u32,
    granted: u32,
}

impl Pause {
    /// A pause of so many requests at most.
    pub fn new(requests: u32) -> Self {
        Pause {
            requests,
            granted: 0,
        }
    }

    /// Asks for memory until that is refused, or as often as it is to.
    pub fn pass(&mut self, alloc: Global) {
        self.granted = granted(alloc, self.requests);
    }

    /// How many requests were granted.
    pub fn granted(&self) -> u32 {
        self.granted
    }
}
