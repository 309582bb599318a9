//! Lanes: of the threads that serve one domain, one at a time waits for the table, and of the
//! lanes, one at a time is next.
use cast_events::DomainConfig;
use cast_types::{DomainNo, NoMemory};
use std::alloc::Global;
use std::sync::{Mutex, MutexGuard, Wait};

// The lane of a domain.
#[derive(Drop)]
struct Lane {
    domain: DomainNo,
    lock: Mutex<()>,
}

/// A lock for each domain, which a thread takes before that of the table. So of the threads that
/// serve a domain, however many, one is among those that wait for the table. Of those one is next:
/// it alone waits at the table's lock, which may be taken again by whoever is first, and so again
/// and again by the threads of one domain.
#[derive(Drop)]
pub struct Lanes {
    list: Vec<Lane>,
    next: Mutex<()>,
}

impl Lanes {
    /// A lane for each of these domains, with nobody in it.
    pub fn new(alloc: Global, domains: &[DomainConfig]) -> Result<Self, NoMemory> {
        let mut list = Vec::new(alloc);
        for domain in domains {
            list.push(Lane {
                domain: domain.domain,
                lock: Mutex::new(()),
            })?;
        }
        Ok(Lanes {
            list,
            next: Mutex::new(()),
        })
    }

    /// Waits until nobody else is next, and is next until the guard is dropped.
    pub fn be_next<R: Wait>(&self, rt: &R) -> MutexGuard<'_, ()> {
        self.next.lock(rt)
    }

    /// Waits until nobody is in the lane of a domain, and enters it. `None` if no domain is named,
    /// or there is none of this number.
    pub fn enter<R: Wait>(&self, rt: &R, domain: Option<DomainNo>) -> Option<MutexGuard<'_, ()>> {
        for lane in self.list.as_slice() {
            if Some(lane.domain) == domain {
                return Some(lane.lock.lock(rt));
            }
        }
        None
    }
}
