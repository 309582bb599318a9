//! The keys of a daemon: they are read when it starts, and again when the console says so.
use cast_config::{Cause, ConfigFault, HostKey, Setup, read_keys};
use cast_sockets::{Keyrings, KeysFault, are_sealed};
use cast_types::List;
use std::alloc::Global;
use std::fmt::{Display, Formatter};
use std::fs::{File, OpenFile};
use std::os::unix::fs::MetadataExt;
use std::random::RandomSource;
use std::rt::Files;
use std::sync::Wait;
use std::{fmt, fs, io};

// Who may use a file beside the user that it belongs to, in its mode.
const OTHERS: u32 = 0o077;

// The most bytes of a file of keys.
const MOST_BYTES: u64 = 1_048_576;

/// Why a daemon does not take keys.
#[derive(Clone, Copy, Debug, PartialEq, Eq)]
pub enum NoKeys<'a> {
    /// The file of this name cannot be read.
    Unreadable(&'a str),
    /// The file of this name is not plain, or others than root and the own user can use it.
    NotPrivate(&'a str),
    /// What the file says has a fault.
    Fault(ConfigFault),
    /// There is no key for the sealed site of this address.
    Missing(&'a str),
    /// The sealed site of this address has more than two keys, or two of one number.
    TooMany(&'a str),
    /// The system draws no number.
    NotDrawn,
    NoMemory,
}

impl Display for NoKeys<'_> {
    fn fmt<W: fmt::Write>(&self, f: &mut Formatter<W>) -> fmt::Result {
        match self {
            NoKeys::Unreadable(name) => write!(f, "keys: {name}: cannot be read"),
            NoKeys::NotPrivate(name) => write!(
                f,
                "keys: {name}: not a plain file that only its user can use"
            ),
            NoKeys::Fault(fault) => write!(f, "keys: {fault}"),
            NoKeys::Missing(address) => write!(f, "keys: none for {address}"),
            NoKeys::TooMany(address) => {
                write!(f, "keys: more than two for {address}, or two of one number")
            }
            NoKeys::NotDrawn => f.write_str("keys: the system draws no number"),
            NoKeys::NoMemory => f.write_str("no memory"),
        }
    }
}

/// Where the keys of a daemon are.
#[derive(Drop)]
pub struct KeyFile {
    /// The name of the file. `None` if the daemon was given no keys.
    pub name: Option<String>,
}

impl KeyFile {
    /// Reads the keys, and has the daemon of this set-up take them in place of those that it has.
    /// Where there is a fault, it goes on with these.
    pub fn take<'a, R: Files + Wait>(
        &'a self,
        rt: &R,
        alloc: Global,
        setup: &'a Setup,
        keyrings: &Keyrings,
    ) -> Result<(), NoKeys<'a>> {
        let keys = match &self.name {
            Some(name) => keys_in(rt, alloc, name.as_str())?,
            None => List::new(alloc),
        };
        match keyrings.take(rt, alloc, setup, keys.as_slice()) {
            Ok(()) => Ok(()),
            Err(KeysFault::Missing(address)) => Err(NoKeys::Missing(address)),
            Err(KeysFault::TooMany(address)) => Err(NoKeys::TooMany(address)),
            Err(KeysFault::NoMemory) => Err(NoKeys::NoMemory),
        }
    }

    /// Takes the keys when the daemon starts. Gives a number that no other daemon of the site drew,
    /// if the site is sealed.
    pub fn take_first<'a, R: Files + RandomSource + Wait>(
        &'a self,
        rt: &R,
        alloc: Global,
        setup: &'a Setup,
        keyrings: &Keyrings,
    ) -> Result<u64, NoKeys<'a>> {
        self.take(rt, alloc, setup, keyrings)?;
        let mut bytes = [0u8; 8];
        if are_sealed(setup, setup.config.site) && rt.fill_bytes(&mut bytes).is_err() {
            return Err(NoKeys::NotDrawn);
        }
        Ok(u64::from_be_bytes(bytes))
    }
}

// The text of a file that is plain, and that only root and the own user can use. `None` for any
// other file.
fn private_text<R: Files>(rt: &R, alloc: Global, name: &str) -> io::Result<Option<String>> {
    if !fs::symlink_metadata(rt, name)?.is_file() {
        return Ok(None);
    }
    let file = File::open(rt, name)?;
    let found = file.metadata()?;
    let is_own = found.uid() == 0 || found.uid() == libc::geteuid();
    if !is_own || found.mode() & OTHERS != 0 || found.len() > MOST_BYTES {
        return Ok(None);
    }
    Ok(Some(io::read_to_string(alloc, file)?))
}

// The keys in the file of this name.
fn keys_in<'a, R: Files>(
    rt: &R,
    alloc: Global,
    name: &'a str,
) -> Result<List<HostKey>, NoKeys<'a>> {
    let text = match private_text(rt, alloc, name) {
        Ok(Some(text)) => text,
        Ok(None) => return Err(NoKeys::NotPrivate(name)),
        Err(error) if error.kind() == io::ErrorKind::OutOfMemory => return Err(NoKeys::NoMemory),
        Err(_) => return Err(NoKeys::Unreadable(name)),
    };
    match read_keys(alloc, text.as_str()) {
        Ok(keys) => Ok(keys),
        Err(fault) if fault.cause == Cause::NoMemory => Err(NoKeys::NoMemory),
        Err(fault) => Err(NoKeys::Fault(fault)),
    }
}
