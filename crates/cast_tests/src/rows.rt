//! A daemon at site 1 alone, of two domains, and what happens to it.
use crate::gate::PATIENT;
use bytes::Bytes;
use cast_events::{Config, DomainConfig, Event};
use cast_message::{CastKind, Command, Request};
use cast_pool::{Asked, Raw};
use cast_quota::Quotas;
use cast_types::{DomainNo, GroupNo, List, NoMemory, SiteNo};
use std::alloc::Global;

// The frames that the site sends itself until its process has a view of group 1: the type of each,
// and what is behind the number of the domain.
const FRAMES: [(u8, &[u8]); 4] = [
    (4, &[0, 1, 0, 1, 0, 0, 0, 1, 1, 0, 1, 0, 0, 0, 1]),
    (5, &[0, 1, 0, 1, 0, 0, 0, 1, 0]),
    (
        10,
        &[
            0, 1, 0, 1, 0, 0, 0, 1, 1, 0, 1, 0, 0, 0, 1, 0, 0, 0, 0, 1, 0, 0, 0, 0, 0, 0, 0,
        ],
    ),
    (11, &[0, 1, 0, 1, 0, 0, 0, 1]),
];

fn domain(alloc: Global, number: u8) -> Result<DomainConfig, NoMemory> {
    let mut domain = DomainConfig {
        domain: DomainNo(number),
        home: SiteNo(1),
        sites: List::new(alloc),
        groups: List::new(alloc),
        quotas: Quotas::new(),
    };
    domain.sites.push(SiteNo(1))?;
    domain.groups.push(GroupNo(1))?;
    Ok(domain)
}

/// The daemon.
pub fn config(alloc: Global) -> Result<Config, NoMemory> {
    let mut domains = List::new(alloc);
    domains.push(domain(alloc, 1)?)?;
    domains.push(domain(alloc, 2)?)?;
    Ok(Config {
        site: SiteNo(1),
        domains,
    })
}

// The first program of a domain asks for something.
fn asks(domain: u8, request: Request) -> Asked {
    Asked::Event(Event::Command {
        domain: DomainNo(domain),
        serial: 1,
        command: Command::Request(request),
    })
}

// It casts in group 1.
fn casts(domain: u8, tag: u32) -> Asked {
    asks(
        domain,
        Request::Cast {
            tag,
            group: GroupNo(1),
            kind: CastKind::Causal,
            payload: Bytes::new(),
        },
    )
}

// What it was pushed is taken.
fn takes(domain: u8) -> Asked {
    Asked::Event(Event::Take {
        domain: DomainNo(domain),
        serial: 1,
        most: 256,
    })
}

// The bytes of a frame of a domain.
fn frame(alloc: Global, kind: u8, domain: u8, rest: &[u8]) -> Result<Vec<u8>, NoMemory> {
    let head = [0x43, 0x44, 1, kind, domain];
    head.iter().chain(rest).copied().collect(alloc)
}

// A frame of a domain comes.
fn comes(alloc: Global, kind: u8, domain: u8, rest: &[u8]) -> Result<Asked, NoMemory> {
    let frame = frame(alloc, kind, domain, rest)?;
    Ok(Asked::Datagram(Bytes::copy_from_slice(alloc, &frame)?))
}

// The first program of a domain connects and joins group 1: six events, the last four frames.
fn add_join(alloc: Global, all: &mut Vec<Asked>, domain: u8) -> Result<(), NoMemory> {
    all.push(Asked::Event(Event::Open(DomainNo(domain))))?;
    let group = GroupNo(1);
    all.push(asks(domain, Request::Join { tag: 7, group }))?;
    for (kind, rest) in FRAMES {
        all.push(comes(alloc, kind, domain, rest)?)?;
    }
    Ok(())
}

/// In each domain a program joins: twelve events. Then come so many ticks.
pub fn begun(alloc: Global, ticks: u32) -> Result<Vec<Asked>, NoMemory> {
    let mut all = Vec::new(alloc);
    add_join(alloc, &mut all, 1)?;
    add_join(alloc, &mut all, 2)?;
    for _tick in 0..ticks {
        all.push(Asked::Event(Event::Tick(0)))?;
    }
    Ok(all)
}

// Something more is asked, under this number.
fn add(all: &mut Vec<Raw>, number: u64, asked: Asked) -> Result<(), NoMemory> {
    all.push(Raw { number, asked })?;
    Ok(())
}

/// A cast of domain 1 that waits, and one that does not.
pub fn two_casts(alloc: Global) -> Result<Vec<Raw>, NoMemory> {
    let mut all = Vec::new(alloc);
    add(&mut all, PATIENT, casts(1, 9))?;
    add(&mut all, 2, casts(1, 9))?;
    Ok(all)
}

/// A cast of domain 1, and who waits and asks how many there were.
pub fn cast_and_show(alloc: Global) -> Result<Vec<Raw>, NoMemory> {
    let mut all = Vec::new(alloc);
    add(&mut all, 1, casts(1, 9))?;
    add(&mut all, PATIENT, Asked::Show(DomainNo(1)))?;
    Ok(all)
}

// The casts numbered 101 to 200 of domain 1 and 201 to 300 of domain 2, by turns, each with its
// number as its tag.
fn add_casts(all: &mut Vec<Raw>) -> Result<(), NoMemory> {
    for tag in 101..201u32 {
        for (domain, tag) in [(1, tag), (2, tag + 100)] {
            add(all, u64::from(tag), casts(domain, tag))?;
        }
    }
    Ok(())
}

/// These casts, and who waits and takes what the domains have pushed.
pub fn casts_and_takes(alloc: Global) -> Result<Vec<Raw>, NoMemory> {
    let mut all = Vec::new(alloc);
    add_casts(&mut all)?;
    add(&mut all, PATIENT + 1, takes(1))?;
    add(&mut all, PATIENT + 2, takes(2))?;
    Ok(all)
}
