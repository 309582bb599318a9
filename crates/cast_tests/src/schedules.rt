use bytes::Bytes;
use cast_events::{Config, DomainConfig, Event};
use cast_message::{CastKind, Command, Request};
use cast_quota::Quotas;
use cast_types::{DomainNo, GroupNo, List, NoMemory, Proc, SiteNo, Uid};
use cast_world::{Happening, Step, World};
use std::alloc::Global;
use std::test::Fail;

const DOMAIN: DomainNo = DomainNo(1);

// What happens to the first program of a site, and to frames.
#[derive(Clone, Copy)]
enum Row {
    // The program connects.
    Opens(u16),
    // It asks to join a group.
    Joins(u16, u16),
    // It casts in a group.
    Casts(u16, u16),
    // It casts in a group, to be delivered in one order by all.
    Abcasts(u16, u16),
    // A site, the first, is told that another may be lost.
    Suspects(u16, u16),
    // A frame comes to a site.
    Comes(u16, usize),
    // The frames from one number on, up to another, come one after another to whichever site they
    // are addressed to.
    Come(usize, usize),
}

fn local(site: u16, event: Event) -> Step {
    Step {
        site: SiteNo(site),
        what: Happening::Local(event),
    }
}

fn asks(site: u16, request: Request) -> Step {
    let event = Event::Command {
        domain: DOMAIN,
        serial: 1,
        command: Command::Request(request),
    };
    local(site, event)
}

fn joins(site: u16, group: u16) -> Step {
    asks(
        site,
        Request::Join {
            tag: 7,
            group: GroupNo(group),
        },
    )
}

fn casts(site: u16, group: u16, kind: CastKind) -> Step {
    asks(
        site,
        Request::Cast {
            tag: 8,
            group: GroupNo(group),
            kind,
            payload: Bytes::new(),
        },
    )
}

fn comes(site: u16, number: usize) -> Step {
    Step {
        site: SiteNo(site),
        what: Happening::Sent(number),
    }
}

// Each frame is handed to every site: it counts at the one that it is addressed to.
fn add_frames(
    steps: &mut Vec<Step>,
    sites: &[u16],
    from: usize,
    to: usize,
) -> Result<(), NoMemory> {
    for number in from..to {
        for site in sites {
            steps.push(comes(*site, number))?;
        }
    }
    Ok(())
}

fn add(steps: &mut Vec<Step>, sites: &[u16], row: Row) -> Result<(), NoMemory> {
    let step = match row {
        Row::Opens(site) => local(site, Event::Open(DOMAIN)),
        Row::Joins(site, group) => joins(site, group),
        Row::Casts(site, group) => casts(site, group, CastKind::Causal),
        Row::Abcasts(site, group) => casts(site, group, CastKind::Atomic),
        Row::Suspects(site, lost) => local(site, Event::Suspect(DOMAIN, SiteNo(lost))),
        Row::Comes(site, number) => comes(site, number),
        Row::Come(from, to) => return add_frames(steps, sites, from, to),
    };
    steps.push(step)?;
    Ok(())
}

// The steps of a run over these sites.
fn steps_of(alloc: Global, sites: &[u16], rows: &[Row]) -> Result<Vec<Step>, NoMemory> {
    let mut steps = Vec::new(alloc);
    for row in rows {
        add(&mut steps, sites, *row)?;
    }
    Ok(steps)
}

// The configurations of daemons at these sites, of which site 1 is the home, with these groups.
fn configs(alloc: Global, sites: &[u16], groups: &[u16]) -> Result<Vec<Config>, NoMemory> {
    let mut all = Vec::new(alloc);
    for site in sites {
        let mut domains = List::new(alloc);
        domains.push(domain(alloc, sites, groups)?)?;
        all.push(Config {
            site: SiteNo(*site),
            domains,
        })?;
    }
    Ok(all)
}

fn domain(alloc: Global, sites: &[u16], groups: &[u16]) -> Result<DomainConfig, NoMemory> {
    let mut config = DomainConfig {
        domain: DOMAIN,
        home: SiteNo(1),
        sites: List::new(alloc),
        groups: List::new(alloc),
        quotas: Quotas::new(),
    };
    for site in sites {
        config.sites.push(SiteNo(*site))?;
    }
    for group in groups {
        config.groups.push(GroupNo(*group))?;
    }
    Ok(config)
}

// The first process of a site.
fn process(site: u16) -> Proc {
    Proc {
        site: SiteNo(site),
        serial: 1,
    }
}

// A message of the first process of a site, by group, view, that site, and its count.
type Message = (u16, u32, u16, u32);

// Whether the first process of a site has delivered these messages, in this order.
fn has_delivered(world: &World, site: u16, messages: &[Message]) -> Result<bool, NoMemory> {
    let ids = world.delivered(DOMAIN, process(site))?;
    let mut same = ids.len() == messages.len();
    for (id, message) in ids.as_slice().iter().zip(messages.iter()) {
        same = same && *id == named(*message);
    }
    Ok(same)
}

fn named((group, view, sender, count): Message) -> Uid {
    Uid {
        group: GroupNo(group),
        view,
        proc: process(sender),
        count,
    }
}

// The network of these sites after these rows.
fn world_after(
    alloc: Global,
    sites: &[u16],
    groups: &[u16],
    rows: &[Row],
) -> Result<World, NoMemory> {
    let configs = configs(alloc, sites, groups)?;
    let steps = steps_of(alloc, sites, rows)?;
    let mut world = World::new(alloc, &configs)?;
    world.run(&steps)?;
    Ok(world)
}

// The first process of each of these sites has delivered these messages.
fn have_delivered(world: &World, delivered: &[(u16, &[Message])]) -> Result<(), Fail> {
    for (site, messages) in delivered {
        if !has_delivered(world, *site, messages)? {
            return Err(Fail::new(format_args!("site {site}: other messages were delivered")));
        }
    }
    Ok(())
}

// After these rows the first process of each of these sites has delivered these messages.
fn leads(
    alloc: Global,
    sites: &[u16],
    groups: &[u16],
    rows: &[Row],
    delivered: &[(u16, &[Message])],
) -> Result<(), Fail> {
    let world = world_after(alloc, sites, groups, rows)?;
    have_delivered(&world, delivered)
}

// 1.1 and 2.1 are in both groups. 2.1 casts in group 1 and then in group 2, and the second cast
// comes first.
#[test]
fn a_message_waits_for_one_of_another_group(rt: HostRuntime) -> Result<(), Fail> {
    leads(
        rt.alloc(),
        &[1, 2],
        &[1, 2],
        &[
            Row::Opens(1),
            Row::Joins(1, 1),
            Row::Joins(1, 2),
            Row::Come(0, 8),
            Row::Opens(2),
            Row::Joins(2, 1),
            Row::Come(8, 16),
            Row::Joins(2, 2),
            Row::Come(16, 24),
            Row::Casts(2, 1),
            Row::Casts(2, 2),
            Row::Comes(1, 25),
            Row::Comes(1, 24),
        ],
        &[(1, &[(1, 2, 2, 1), (2, 2, 2, 1)])],
    )
}

// 2.1 holds the order of the view of all three. 1.1 and 3.1 cast; both casts come to site 2, that
// of 3.1 first, and 2.1 tells their order by its two messages, which reach site 3 alone. Then the
// holder is lost. 1.1, which knew nothing of the order and had its own cast first, delivers both in
// that order, as 3.1 does. The holder's second message was delivered at no site that reports.
#[test]
fn a_lost_holder_leaves_its_order(rt: HostRuntime) -> Result<(), Fail> {
    leads(
        rt.alloc(),
        &[1, 2, 3],
        &[1],
        &[
            Row::Opens(2),
            Row::Joins(2, 1),
            Row::Come(0, 4),
            Row::Opens(1),
            Row::Joins(1, 1),
            Row::Come(4, 12),
            Row::Opens(3),
            Row::Joins(3, 1),
            Row::Come(12, 24),
            Row::Abcasts(1, 1),
            Row::Abcasts(3, 1),
            Row::Comes(2, 27),
            Row::Comes(2, 24),
            Row::Comes(3, 30),
            Row::Comes(3, 33),
            Row::Suspects(1, 2),
            Row::Come(36, 60),
        ],
        &[
            (1, &[(1, 3, 3, 1), (1, 3, 1, 1), (1, 3, 2, 1)]),
            (3, &[(1, 3, 3, 1), (1, 3, 2, 1), (1, 3, 1, 1)]),
        ],
    )
}
