//! What the datagrams between two sites are sealed with.
use cast_config::{HostKey, Setup, SiteAddress};
use cast_seal::{Key, SealKey, open, seal};
use cast_types::{NoMemory, SiteNo};
use std::alloc::{AllocError, Global};
use std::sync::Wait;
use std::sync::atomic::{AtomicUsize, Ordering};

// The most keys of a site: while keys change, the old one and the new one.
const MOST_KEYS: usize = 2;

/// How many bytes a nonce has.
pub const NONCE: usize = 16;

/// The keys of a site and the own one.
#[derive(Drop)]
pub struct Keyring {
    site: SiteNo,
    // The first one seals.
    keys: Vec<SealKey>,
}

/// Why keys are not taken.
#[derive(Clone, Copy, Debug, PartialEq, Eq)]
pub enum KeysFault<'a> {
    /// The site of this address and the own one are sealed, and there is no key for them.
    Missing(&'a str),
    /// The site of this address has more than two keys, or two of one number.
    TooMany(&'a str),
    NoMemory,
}

impl Keyring {
    // The keys for a site among those of the host.
    fn find(alloc: Global, keys: &[HostKey], site: SiteNo) -> Result<Keyring, NoMemory> {
        let mut found = Vec::new(alloc);
        for key in keys {
            if key.sites.as_slice().contains(&site) {
                found.push(SealKey {
                    number: key.number,
                    key: Key::new(alloc, &key.secret)?,
                })?;
            }
        }
        Ok(Keyring { site, keys: found })
    }

    // Whether it has more than two keys, or two of one number.
    fn has_too_many(&self) -> bool {
        let keys = self.keys.as_slice();
        keys.len() > MOST_KEYS
            || match (keys.first(), keys.get(1)) {
                (Some(first), Some(second)) => first.number == second.number,
                _ => false,
            }
    }

    /// Puts a body behind a seal into `out`.
    pub fn seal(
        &self,
        out: &mut Vec<u8>,
        from: SiteNo,
        to: SiteNo,
        nonce: &[u8; NONCE],
        body: &[u8],
    ) -> Result<(), NoMemory> {
        match self.keys.first() {
            Some(key) => seal(out, key, from, to, nonce, body),
            None => Err(AllocError),
        }
    }

    /// The body behind a seal.
    pub fn open<'a>(&self, from: SiteNo, to: SiteNo, datagram: &'a [u8]) -> Option<&'a [u8]> {
        open(&self.keys, from, to, datagram)
    }
}

/// What a daemon seals with. Its threads read the keys while others replace them.
///
/// Who reads takes no lock. So keys that were replaced stay in memory until the daemon ends.
#[derive(Drop)]
pub struct Keyrings {
    // One entry for each time that keys were taken.
    taken: boxcar::Vec<Vec<Keyring>>,
    // The place of the last.
    last: AtomicUsize,
}

impl Keyrings {
    /// No keys.
    pub fn new(alloc: Global) -> Result<Keyrings, NoMemory> {
        Ok(Keyrings {
            taken: boxcar::Vec::new(alloc)?,
            last: AtomicUsize::new(0),
        })
    }

    /// The keys of a site. `None` if it has none.
    pub fn find(&self, site: SiteNo) -> Option<&Keyring> {
        let keyrings = self.taken.get(self.last.load(Ordering::SeqCst))?;
        keyrings.iter().find(|keyring| keyring.site == site)
    }

    /// Takes those of these keys that a daemon needs, in place of all that it has. Where there is
    /// no key for a sealed site, or too many, or no memory, it goes on with those that it has.
    pub fn take<'a, R: Wait>(
        &self,
        rt: &R,
        alloc: Global,
        setup: &'a Setup,
        keys: &[HostKey],
    ) -> Result<(), KeysFault<'a>> {
        let keyrings = keyrings_of(alloc, setup, keys)?;
        match self.taken.push(rt, keyrings) {
            Ok(place) => {
                self.last.store(place, Ordering::SeqCst);
                Ok(())
            }
            Err(_) => Err(KeysFault::NoMemory),
        }
    }
}

// Whether a site is sealed.
fn is_sealed(addresses: &[SiteAddress], site: SiteNo) -> bool {
    addresses
        .iter()
        .any(|listed| listed.site == site && listed.is_sealed)
}

/// Whether the own site and this one seal what they send each other.
pub fn are_sealed(setup: &Setup, site: SiteNo) -> bool {
    let addresses = setup.addresses.as_slice();
    is_sealed(addresses, setup.config.site) && is_sealed(addresses, site)
}

/// Whether a site has a domain with the own one, or is that.
pub fn is_partner(setup: &Setup, site: SiteNo) -> bool {
    site == setup.config.site
        || setup
            .config
            .domains
            .as_slice()
            .iter()
            .any(|domain| domain.sites.as_slice().contains(&site))
}

// The keys of each sealed site that the own one exchanges datagrams with.
fn keyrings_of<'a>(
    alloc: Global,
    setup: &'a Setup,
    keys: &[HostKey],
) -> Result<Vec<Keyring>, KeysFault<'a>> {
    let mut found = Vec::new(alloc);
    for listed in setup.addresses.as_slice() {
        if !is_partner(setup, listed.site) || !are_sealed(setup, listed.site) {
            continue;
        }
        let Ok(keyring) = Keyring::find(alloc, keys, listed.site) else {
            return Err(KeysFault::NoMemory);
        };
        if keyring.keys.is_empty() {
            return Err(KeysFault::Missing(listed.address.as_str()));
        }
        if keyring.has_too_many() {
            return Err(KeysFault::TooMany(listed.address.as_str()));
        }
        if found.push(keyring).is_err() {
            return Err(KeysFault::NoMemory);
        }
    }
    Ok(found)
}
