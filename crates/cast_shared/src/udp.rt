//! The wire between sites: a socket for each of them.
use bytes::Bytes;
use cast_link::{LinkFault, Wire};
use cast_sockets::{Keyrings, Link, Received};
use cast_types::{NoMemory, SiteNo};
use libc::net as c;
use libc::types::pollfd;
use std::alloc::Global;

// The most bytes that a datagram can have.
const MOST: usize = 65_536;

// So many datagrams of a site are received at most before those of the others are.
const IN_A_ROW: u32 = 32;

// What comes by the links, site by site.
#[derive(Drop)]
struct Inbox<'a> {
    alloc: Global,
    own: SiteNo,
    links: &'a [Link],
    keyrings: &'a Keyrings,
    room: Vec<u8>,
    // What the system was asked of each link, and what it told.
    looked: Vec<pollfd>,
    // The link whose turn it is, and how many datagrams of it were received in this turn.
    place: usize,
    in_a_row: u32,
    // The site of the last datagram.
    sender: Option<SiteNo>,
}

impl<'a> Inbox<'a> {
    // Nothing came. Takes no memory yet.
    fn new(alloc: Global, own: SiteNo, links: &'a [Link], keyrings: &'a Keyrings) -> Self {
        Inbox {
            alloc,
            own,
            links,
            keyrings,
            room: Vec::new(alloc),
            looked: Vec::new(alloc),
            place: links.len(),
            in_a_row: 0,
            sender: None,
        }
    }

    // Makes room for datagrams, and for what the system tells.
    fn prepare(&mut self) -> Result<(), NoMemory> {
        if self.room.is_empty() {
            self.room = vec![in self.alloc; 0u8; MOST]?;
        }
        for link in self.links.iter().skip(self.looked.len()) {
            self.looked.push(pollfd {
                fd: link.fd(),
                events: c::POLLIN,
                revents: 0,
            })?;
        }
        Ok(())
    }

    // Waits until something comes by a link. False if none can be waited for any more.
    fn wait(&mut self) -> bool {
        let count = c::poll(self.looked.as_mut_slice(), -1);
        self.place = 0;
        self.in_a_row = 0;
        (count >= 0 || os::errno() == libc::EINTR)
            && !self
                .looked
                .iter()
                .any(|it| it.revents & (c::POLLHUP | c::POLLNVAL) != 0)
    }

    // The turn is the next link's.
    fn pass(&mut self) {
        self.place = self.place.saturating_add(1);
        self.in_a_row = 0;
    }

    // What the link has whose turn it is. Without a datagram, or after many, the turn passes on.
    fn look(&mut self, link: &Link) -> Received {
        let is_ready = match self.looked.get(self.place) {
            Some(it) => it.revents != 0 && self.in_a_row < IN_A_ROW,
            None => false,
        };
        let found = if is_ready {
            link.receive(self.room.as_mut_slice())
        } else {
            Received::Nothing
        };
        if found == Received::Nothing {
            self.pass();
        } else {
            self.in_a_row = self.in_a_row.saturating_add(1);
        }
        found
    }

    // The next datagram of those that had come when it was waited last. One that finds no memory is
    // lost.
    fn next(&mut self) -> Result<Option<Bytes>, NoMemory> {
        for _ in 0..u64::MAX {
            let Some(link) = self.links.get(self.place) else {
                return Ok(None);
            };
            match self.look(link) {
                Received::Datagram(count) => {
                    let Some(bytes) = self.room.get(..count) else {
                        return Ok(None);
                    };
                    if let Some(body) = link.open(self.own, self.keyrings, bytes) {
                        self.sender = Some(link.site);
                        return Ok(Some(Bytes::copy_from_slice(self.alloc, body)?));
                    }
                }
                Received::Foreign | Received::Nothing => {}
            }
        }
        Ok(None)
    }

    // The next datagram. Waits for one. `None` if none can be waited for any more.
    fn first(&mut self) -> Result<Option<Bytes>, NoMemory> {
        self.prepare()?;
        for _ in 0..u64::MAX {
            let next = self.next()?;
            if next.is_some() {
                return Ok(next);
            }
            if !self.wait() {
                break;
            }
        }
        Ok(None)
    }
}

/// The links of a daemon, as a thread sends by them and receives.
#[derive(Drop)]
pub struct Udp<'a> {
    own: SiteNo,
    links: &'a [Link],
    keyrings: &'a Keyrings,
    inbox: Inbox<'a>,
    // The room for a sealed datagram.
    sealed: Vec<u8>,
    failures: u64,
}

impl<'a> Udp<'a> {
    /// An end of the own site that sends by these links, behind seals of these keys where they are
    /// sealed. Takes no memory until it receives, or seals what it sends.
    pub fn new(alloc: Global, own: SiteNo, links: &'a [Link], keyrings: &'a Keyrings) -> Self {
        Udp {
            own,
            links,
            keyrings,
            inbox: Inbox::new(alloc, own, links, keyrings),
            sealed: Vec::new(alloc),
            failures: 0,
        }
    }

    /// The next datagram of those that had come when one was waited for last. `None` if there is no
    /// more. A datagram that finds no memory is lost.
    pub fn receive_now(&mut self) -> Result<Option<Bytes>, NoMemory> {
        self.inbox.next()
    }

    /// The site whose datagram was received last, by the address that it came from.
    pub fn sender(&self) -> Option<SiteNo> {
        self.inbox.sender
    }
}

impl Wire for Udp<'_> {
    ghost failed = { λ w. w.failures };

    fn send(&mut self, to: SiteNo, bytes: &[u8]) -> bool {
        let is_sent = match self.links.iter().find(|link| link.site == to) {
            Some(link) => link.give(self.own, self.keyrings, &mut self.sealed, bytes),
            None => false,
        };
        if !is_sent {
            self.failures += 1;
        }
        is_sent
    }

    fn receive(&mut self) -> Result<Bytes, LinkFault> {
        match self.inbox.first()? {
            Some(bytes) => Ok(bytes),
            None => {
                self.failures += 1;
                Err(LinkFault::Device)
            }
        }
    }

    fn failures(&self) -> u64 {
        self.failures
    }
}
