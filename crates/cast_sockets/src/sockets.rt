//! The sockets of a daemon: those for datagrams, and one for the programs of each domain.
use crate::datagrams::{Link, Peer, bind_links};
use crate::keyring::{are_sealed, is_partner};
use cast_config::{DomainSocket, Setup, SiteAddress};
use cast_types::{DomainNo, NoMemory, SiteNo};
use std::alloc::Global;
use std::net::{Net, Shutdown, SocketAddr, ToSocketAddrs};
use std::os::fd::OwnedFd;
use std::os::unix::fs::{FileTypeExt, MetadataExt};
use std::os::unix::net::{UnixListener, UnixStream};
use std::rt::Files;
use std::{fs, io};

// A file of this machine, whatever its path is.
#[derive(Clone, Copy, Debug, PartialEq, Eq)]
struct FileId {
    device: u64,
    inode: u64,
}

/// The socket of a domain.
#[derive(Drop)]
pub struct Listening {
    pub domain: DomainNo,
    pub listener: UnixListener,
    // The file that was made for it. None is made where the path is empty: the system then picks a
    // name that no file has.
    file: Option<FileId>,
    // A second handle of the listener. Once that is shut down, each accept fails at once.
    stopper: UnixStream,
}

/// The sockets of a daemon.
#[derive(Drop)]
pub struct Sockets {
    /// For each site that has a domain with this one, itself too.
    pub links: Vec<Link>,
    pub listening: Vec<Listening>,
    // A second handle of the socket of one link. Once that is shut down, the receiver is woken. It
    // is made when the daemon starts: at its end there may be no descriptor to spare.
    stopper: UnixStream,
}

/// Why the sockets of a daemon cannot be used.
#[derive(Clone, Copy, Debug, PartialEq, Eq)]
pub enum SocketFault<'a> {
    /// This address cannot be resolved or bound, or this path cannot be bound.
    Name(&'a str),
    /// A program listens at this path.
    InUse(&'a str),
    /// There is a file at this path that is no socket.
    Occupied(&'a str),
    NoMemory,
}

impl Sockets {
    /// Removes the files of the sockets, which were bound at these paths, and wakes the threads
    /// that wait for a socket. The files go first: while this daemon listens, nobody takes its
    /// sockets for those of a daemon that is gone.
    pub fn stop<R: Files>(&self, rt: &R, paths: &[DomainSocket]) {
        self.remove_files(rt, paths);
        for listening in self.listening.as_slice() {
            let _ = listening.stopper.shutdown(Shutdown::Both);
        }
        let _ = self.stopper.shutdown(Shutdown::Both);
    }

    /// Removes the files of the sockets, which were bound at these paths. What others made at a
    /// path since then stays.
    pub fn remove_files<R: Files>(&self, rt: &R, paths: &[DomainSocket]) {
        remove_all(rt, self.listening.as_slice(), paths);
    }
}

// The file at a path.
fn file_at<R: Files>(rt: &R, path: &str) -> io::Result<FileId> {
    let metadata = fs::symlink_metadata(rt, path)?;
    Ok(FileId {
        device: metadata.dev(),
        inode: metadata.ino(),
    })
}

// Removes the files of sockets that were bound at the first of these paths. What others made at a
// path since then stays.
fn remove_all<R: Files>(rt: &R, listening: &[Listening], paths: &[DomainSocket]) {
    for (one, socket) in listening.iter().zip(paths) {
        let path = socket.path.as_str();
        if let Ok(file) = file_at(rt, path)
            && Some(file) == one.file
        {
            let _ = fs::remove_file(rt, path);
        }
    }
}

// The first address that a name stands for.
fn resolve<'a, R: Net>(rt: &R, name: &'a str) -> Result<SocketAddr, SocketFault<'a>> {
    match name.to_socket_addrs(rt) {
        Ok(found) => {
            let mut found = found;
            match found.next() {
                Some(address) => Ok(address),
                None => Err(SocketFault::Name(name)),
            }
        }
        Err(error) if error.kind() == io::ErrorKind::OutOfMemory => Err(SocketFault::NoMemory),
        Err(_) => Err(SocketFault::Name(name)),
    }
}

/// The sites with their addresses, or the first address that cannot be resolved.
pub fn resolve_all<'a, R: Net>(
    rt: &R,
    alloc: Global,
    addresses: &'a [SiteAddress],
) -> Result<Vec<Peer>, SocketFault<'a>> {
    let mut peers = Vec::new(alloc);
    for listed in addresses {
        let peer = Peer {
            site: listed.site,
            address: resolve(rt, listed.address.as_str())?,
        };
        if peers.push(peer).is_err() {
            return Err(SocketFault::NoMemory);
        }
    }
    Ok(peers)
}

// The address of a site, as the configuration has it.
fn address_of(addresses: &[SiteAddress], site: SiteNo) -> &str {
    match addresses.iter().find(|listed| listed.site == site) {
        Some(listed) => listed.address.as_str(),
        None => "",
    }
}

// Makes the socket of a domain.
fn listen<R: Net + Files>(rt: &R, socket: &DomainSocket) -> io::Result<Listening> {
    let path = socket.path.as_str();
    let listener = UnixListener::bind(rt, path)?;
    let file = if path.is_empty() {
        None
    } else {
        Some(file_at(rt, path)?)
    };
    let stopper = UnixStream::from(OwnedFd::from(listener.try_clone()?));
    Ok(Listening {
        domain: socket.domain,
        listener,
        file,
        stopper,
    })
}

// Whether nothing is at a path.
fn is_vacant<R: Files>(rt: &R, path: &str) -> bool {
    match fs::symlink_metadata(rt, path) {
        Ok(_) => false,
        Err(error) => error.kind() == io::ErrorKind::NotFound,
    }
}

// Whether a socket is at a path.
fn is_socket<R: Files>(rt: &R, path: &str) -> bool {
    match fs::symlink_metadata(rt, path) {
        Ok(metadata) => metadata.file_type().is_socket(),
        Err(_) => false,
    }
}

// Makes room at a path: removes the socket of a program that is gone. That a connect is refused
// shows that nobody listens there.
fn make_room<'a, R: Net + Files>(rt: &R, path: &'a str) -> Result<(), SocketFault<'a>> {
    if is_vacant(rt, path) {
        return Ok(());
    }
    if !is_socket(rt, path) {
        return Err(SocketFault::Occupied(path));
    }
    match UnixStream::connect(rt, path) {
        Ok(_) => return Err(SocketFault::InUse(path)),
        Err(error) if error.kind() == io::ErrorKind::ConnectionRefused => {}
        Err(_) => return Err(SocketFault::Name(path)),
    }
    match fs::remove_file(rt, path) {
        Ok(()) => Ok(()),
        Err(_) => Err(SocketFault::Name(path)),
    }
}

// Binds the socket of a domain. Where it cannot be bound, a file that was made for it is removed.
fn bind_one<'a, R: Net + Files>(
    rt: &R,
    socket: &'a DomainSocket,
    listening: &mut Vec<Listening>,
) -> Result<(), SocketFault<'a>> {
    let path = socket.path.as_str();
    make_room(rt, path)?;
    let is_bound = match listen(rt, socket) {
        Ok(one) => listening.push(one).is_ok(),
        // Another program was faster, and the file is its own.
        Err(error) if error.kind() == io::ErrorKind::AddrInUse => {
            return Err(SocketFault::InUse(path));
        }
        Err(_) => false,
    };
    if is_bound {
        return Ok(());
    }
    let _ = fs::remove_file(rt, path);
    Err(SocketFault::Name(path))
}

// Binds the sockets of the domains. At the first that cannot be bound, those before it are given
// up.
fn bind_all<'a, R: Net + Files>(
    rt: &R,
    alloc: Global,
    paths: &'a [DomainSocket],
) -> Result<Vec<Listening>, SocketFault<'a>> {
    let mut listening = Vec::new(alloc);
    for socket in paths {
        if let Err(fault) = bind_one(rt, socket, &mut listening) {
            remove_all(rt, listening.as_slice(), paths);
            return Err(fault);
        }
    }
    Ok(listening)
}

// The other sites that have a domain with this one, each with whether it is sealed.
fn partners(alloc: Global, setup: &Setup, peers: &[Peer]) -> Result<Vec<(Peer, bool)>, NoMemory> {
    let mut found = Vec::new(alloc);
    for peer in peers {
        if peer.site != setup.config.site && is_partner(setup, peer.site) {
            found.push((*peer, are_sealed(setup, peer.site)))?;
        }
    }
    Ok(found)
}

/// Binds the sockets of a daemon, or answers the name of the first that cannot be bound. `drawn`
/// begins the nonces of seals, as in `bind_links`.
pub fn bind<'a, R: Net + Files>(
    rt: &R,
    alloc: Global,
    setup: &'a Setup,
    peers: &[Peer],
    drawn: u64,
) -> Result<Sockets, SocketFault<'a>> {
    let own = setup.config.site;
    let name = address_of(setup.addresses.as_slice(), own);
    let Some(peer) = peers.iter().find(|peer| peer.site == own) else {
        return Err(SocketFault::Name(name));
    };
    let Ok(partners) = partners(alloc, setup, peers) else {
        return Err(SocketFault::NoMemory);
    };
    let first = (*peer, are_sealed(setup, own));
    let (links, handle) = match bind_links(rt, alloc, first, partners, drawn) {
        Ok(bound) => bound,
        Err(error) if error.kind() == io::ErrorKind::OutOfMemory => {
            return Err(SocketFault::NoMemory);
        }
        Err(_) => return Err(SocketFault::Name(name)),
    };
    let listening = bind_all(rt, alloc, setup.sockets.as_slice())?;
    Ok(Sockets {
        links,
        listening,
        stopper: UnixStream::from(handle),
    })
}
