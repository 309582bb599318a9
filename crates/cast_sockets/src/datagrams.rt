//! The sockets for datagrams between sites: one for each site that this one exchanges datagrams
//! with.
use crate::keyring::{Keyrings, NONCE};
use cast_types::SiteNo;
use libc::net as c;
use os::FromRawFd;
use std::alloc::Global;
use std::io;
use std::io::ErrorKind;
use std::net::{Net, SocketAddr, UdpSocket};
use std::os::fd::{AsRawFd, OwnedFd, RawFd};
use std::sync::atomic::{AtomicBool, AtomicU64, Ordering};

// How many bytes of datagrams a socket is asked to hold, of those that wait to be received and of
// those that wait to be sent.
const WANTED_ROOM: u32 = 4_194_304;

// How many bytes it holds if the system does not say.
const LEAST_ROOM: u32 = 65_536;

/// A site, and where its datagrams go.
#[derive(Clone, Copy, Debug)]
pub struct Peer {
    pub site: SiteNo,
    pub address: SocketAddr,
}

/// What a look at a link finds.
#[derive(Clone, Copy, Debug, PartialEq, Eq)]
pub enum Received {
    /// A datagram of so many bytes.
    Datagram(usize),
    /// A datagram that does not come from the site's address, which is counted.
    Foreign,
    /// No datagram waits.
    Nothing,
}

/// The way to a site and back, over a socket of its own. The own site has one too.
///
/// Datagrams wait in the room of their socket until the host of their site is found. So those for a
/// host that has left the network take no room of those for others.
#[derive(Drop)]
pub struct Link {
    pub site: SiteNo,
    // Where its datagrams go, and come from.
    address: SocketAddr,
    socket: UdpSocket,
    // The system sends to that address, and passes over what comes from others.
    is_connected: AtomicBool,
    // What the site sends comes behind seals, and what it is sent goes behind them.
    is_sealed: bool,
    // With how many datagrams sealed for the site, a nonce that no other one has.
    drawn: u64,
    sealed: AtomicU64,
    // How many datagrams were not sent.
    unsent: AtomicU64,
    // How many came from another address, or without the site's seal.
    passed_over: AtomicU64,
}

impl Link {
    // Takes a socket for the datagrams of a site. Where the system knows no way to that yet, the
    // socket stays without a peer.
    fn new(socket: UdpSocket, peer: Peer, is_sealed: bool, drawn: u64) -> io::Result<Link> {
        socket.set_nonblocking(true)?;
        let is_connected = socket.connect(peer.address).is_ok();
        let address = if is_connected {
            socket.peer_addr()?
        } else {
            peer.address
        };
        Ok(Link {
            site: peer.site,
            address,
            socket,
            is_connected: AtomicBool::new(is_connected),
            is_sealed,
            drawn,
            sealed: AtomicU64::new(0),
            unsent: AtomicU64::new(0),
            passed_over: AtomicU64::new(0),
        })
    }

    /// The socket, for calls of the system.
    pub fn fd(&self) -> RawFd {
        self.socket.as_raw_fd()
    }

    /// Gives the socket its peer, where the system knew no way to the site before and does now.
    pub fn connect(&self) {
        if !self.is_connected.load(Ordering::SeqCst) && self.socket.connect(self.address).is_ok() {
            self.is_connected.store(true, Ordering::SeqCst);
        }
    }

    fn send_now(&self, bytes: &[u8]) -> io::Result<usize> {
        if self.is_connected.load(Ordering::SeqCst) {
            self.socket.send(bytes)
        } else {
            self.socket.send_to(bytes, self.address)
        }
    }

    // A nonce that none of the daemon's datagrams for the site had.
    fn next_nonce(&self) -> [u8; NONCE] {
        let count = self.sealed.fetch_add(1, Ordering::SeqCst);
        let mut nonce = [0u8; NONCE];
        nonce[..8].copy_from_slice(&self.drawn.to_be_bytes());
        nonce[8..].copy_from_slice(&count.to_be_bytes());
        nonce
    }

    /// Sends a datagram from the own site, behind a seal if the link is sealed. Answers whether it
    /// is on its way. The room is for the sealed datagram.
    pub fn give(&self, own: SiteNo, keyrings: &Keyrings, room: &mut Vec<u8>, bytes: &[u8]) -> bool {
        if !self.is_sealed {
            return self.send(bytes);
        }
        let Some(keyring) = keyrings.find(self.site) else {
            return false;
        };
        let nonce = self.next_nonce();
        keyring.seal(room, own, self.site, &nonce, bytes).is_ok() && self.send(room.as_slice())
    }

    /// What a datagram of the site for the own one has: what is behind its seal, if the link is
    /// sealed. `None`, which is counted, if no key of the site opens it.
    pub fn open<'a>(
        &self,
        own: SiteNo,
        keyrings: &Keyrings,
        datagram: &'a [u8],
    ) -> Option<&'a [u8]> {
        if !self.is_sealed {
            return Some(datagram);
        }
        let body = match keyrings.find(self.site) {
            Some(keyring) => keyring.open(self.site, own, datagram),
            None => None,
        };
        if body.is_none() {
            self.passed_over.fetch_add(1, Ordering::SeqCst);
        }
        body
    }

    /// Whether the site and the own one seal what they send each other.
    pub fn is_sealed(&self) -> bool {
        self.is_sealed
    }

    // Sends a datagram, if there is room for it now. Answers whether it is on its way.
    fn send(&self, bytes: &[u8]) -> bool {
        let is_sent = match self.send_now(bytes) {
            Ok(_) => true,
            // That nobody received an earlier one is told in place of sending this one.
            Err(error) if error.kind() == ErrorKind::ConnectionRefused => {
                self.send_now(bytes).is_ok()
            }
            Err(_) => false,
        };
        if !is_sent {
            self.unsent.fetch_add(1, Ordering::SeqCst);
        }
        is_sent
    }

    /// Takes a datagram that waits to be received. What does not fit the room is lost.
    pub fn receive(&self, room: &mut [u8]) -> Received {
        match self.socket.recv_from(room) {
            Ok((count, from)) => {
                if from.ip() == self.address.ip() && from.port() == self.address.port() {
                    Received::Datagram(count)
                } else {
                    self.passed_over.fetch_add(1, Ordering::SeqCst);
                    Received::Foreign
                }
            }
            Err(_) => Received::Nothing,
        }
    }

    /// How many datagrams were passed over, since they came from another address, or without the
    /// site's seal.
    pub fn passed_over(&self) -> u64 {
        self.passed_over.load(Ordering::SeqCst)
    }

    /// How many datagrams were not sent, since there was no room for them, or the system refused
    /// them.
    pub fn unsent(&self) -> u64 {
        self.unsent.load(Ordering::SeqCst)
    }

    // Asks for room, and answers how many bytes of datagrams that wait to be received the socket
    // holds now. The system may give less than is asked for.
    fn widen(&self) -> u64 {
        let fd = self.socket.as_raw_fd();
        let mut value = value_of(WANTED_ROOM);
        let mut len = 4;
        let status = unsafe {
            let _ = c::setsockopt(fd, c::SOL_SOCKET, c::SO_SNDBUF, &value, 4);
            let _ = c::setsockopt(fd, c::SOL_SOCKET, c::SO_RCVBUF, &value, 4);
            c::getsockopt(fd, c::SOL_SOCKET, c::SO_RCVBUF, &mut value, &mut len)
        };
        if status < 0 {
            return u64::from(LEAST_ROOM);
        }
        let found = u32::from_ne_bytes([value[0], value[1], value[2], value[3]]);
        // Linux tells twice the room that datagrams have.
        u64::from(found.max(LEAST_ROOM)) / 2
    }
}

// A number, as an option of a socket has it.
fn value_of(number: u32) -> [u8; 16] {
    let mut value = [0u8; 16];
    value[..4].copy_from_slice(&number.to_ne_bytes());
    value
}

/// Asks for room for datagrams that wait in these sockets, and answers how many bytes of those that
/// wait to be received each holds at least.
pub fn widen(links: &[Link]) -> u64 {
    let mut least = u64::MAX;
    for link in links {
        least = least.min(link.widen());
    }
    least
}

// Lets the other sockets of this user have the address of this one too, where they let this one, or
// not.
fn share(socket: &UdpSocket, is_shared: bool) -> io::Result<()> {
    let value = value_of(u32::from(is_shared));
    let status = unsafe {
        c::setsockopt(
            socket.as_raw_fd(),
            c::SOL_SOCKET,
            c::SO_REUSEPORT,
            &value,
            4,
        )
    };
    if status < 0 {
        Err(io::Error::from(ErrorKind::Other))
    } else {
        Ok(())
    }
}

// A socket at the address of another one, which lets it.
fn bind_beside(first: &UdpSocket, is_ipv4: bool) -> io::Result<UdpSocket> {
    let family = if is_ipv4 { c::AF_INET } else { c::AF_INET6 };
    let fd = unsafe { c::socket(family, c::SOCK_DGRAM | c::SOCK_CLOEXEC, 0) };
    if fd < 0 {
        return Err(io::Error::from(ErrorKind::Other));
    }
    let socket = unsafe { UdpSocket::from_raw_fd(fd) };
    share(&socket, true)?;
    let mut name = [0u8; c::_SS_SIZE];
    let mut len = c::_SS_SIZE as u32;
    let status = unsafe {
        if c::getsockname(first.as_raw_fd(), &mut name, &mut len) < 0 {
            -1
        } else {
            c::bind(fd, &name, len.min(c::_SS_SIZE as u32))
        }
    };
    if status < 0 {
        return Err(io::Error::from(ErrorKind::Other));
    }
    Ok(socket)
}

/// Binds a socket for the own site and, at the same address, one for each of these other sites; the
/// flag beside a site says whether it is sealed. While this goes on, only the own user can bind
/// that address too, and afterwards nobody can. Gives also a second handle of the first socket.
/// `drawn` begins the nonces of seals: each start of a daemon draws another number.
pub fn bind_links<R: Net>(
    rt: &R,
    alloc: Global,
    own: (Peer, bool),
    others: Vec<(Peer, bool)>,
    drawn: u64,
) -> io::Result<(Vec<Link>, OwnedFd)> {
    let (own, own_is_sealed) = own;
    let first = UdpSocket::bind(rt, own.address)?;
    let handle = OwnedFd::from(first.try_clone()?);
    share(&first, true)?;
    let mut links = Vec::new(alloc);
    for (peer, is_sealed) in others {
        let next = bind_beside(&first, own.address.is_ipv4())?;
        links.push(Link::new(next, peer, is_sealed, drawn)?)?;
    }
    links.push(Link::new(first, own, own_is_sealed, drawn)?)?;
    for link in links.as_slice() {
        share(&link.socket, false)?;
    }
    Ok((links, handle))
}
