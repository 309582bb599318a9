//! How much a site is sent that does not answer.
//!
//! The rules send each message again after `resend`, until its site acknowledges it. To a site that
//! is stopped, or gone, they would send all that is kept again and again. So a site that has
//! acknowledged nothing for long is sent a few messages a second, until it acknowledges one. The
//! rules cannot tell that from a network that loses datagrams.
ghost use Rattle.std.specs.Prelude.{◌≡◌, ◌++◌, ◌∷◌, [], OnOk, OnErr, map};
ghost use Rattle.cast_sending.specs.Silences.{acknowledged, carries_message, is_silent};
ghost use Rattle.cast_sending.specs.Silences.{is_silent_site, new_silence, silence_of, ticked};
ghost use Rattle.cast_sending.specs.Silences.{MayPass, MaySend, OnlyChanges, OnlySilentWait, Pass};
ghost use Rattle.cast_sending.specs.Silences.{Ends, IsPlace, Sends};

use cast_events::Outs;
use cast_message::SiteFrame;
use cast_types::{DomainNo, List, NoMemory, SiteNo};
use std::alloc::Global;
use std::marker::Model;
use std::mem;

// A site is silent once it has acknowledged nothing for so many ticks: a second. The time after
// which a message is late says nothing here: it grows with what is not acknowledged.
const SILENT: u32 = 50;

// So many messages a silent site is sent at a tick: 100 a second at most.
const AT_A_TICK: u32 = 2;

// Since when a site has acknowledged nothing.
#[derive(Clone, Copy)]
struct Silence {
    // How many ticks there were since it was sent the first message behind its last
    // acknowledgement.
    waited: Option<u32>,
    // So many messages it may be sent until the next tick, if it is silent.
    room: u32,
}

impl Silence {
    // It was sent nothing.
    fn new() -> Self
        ensures { result ≡ new_silence }
    {
        Silence {
            waited: None,
            room: AT_A_TICK,
        }
    }

    fn is_silent(self) -> bool
        ensures { result ≡ is_silent self }
    {
        match self.waited {
            Some(ticks) => ticks >= SILENT,
            None => false,
        }
    }

    // A tick later.
    fn ticked(self) -> Self
        ensures { result ≡ ticked self }
    {
        let waited = match self.waited {
            Some(ticks) => Some(ticks.saturating_add(1)),
            None => None,
        };
        Silence {
            waited,
            room: AT_A_TICK,
        }
    }

    // Whether a message may be sent, and what is known once it is.
    fn sent(self) -> (bool, Self)
        ensures { Sends self result.0 result.1 }
    {
        let waited = Some(self.waited.unwrap_or(0));
        if !self.is_silent() {
            return (
                true,
                Silence {
                    waited,
                    room: self.room,
                },
            );
        }
        (
            self.room > 0,
            Silence {
                waited,
                room: self.room.saturating_sub(1),
            },
        )
    }
}

/// Which of other sites answer what they are sent.
#[derive(Drop)]
pub struct Silences {
    sites: Vec<(SiteNo, Silence)>,
}

impl Model for Silences {
    ghost use Rattle.std.specs.Prelude.{List};
    ghost use Rattle.cast_types.specs.declared.names.SiteNo.{SiteNo};
    ghost use Rattle.cast_sending.specs.declared.silence.Silence.{Silence};

    ghost Value = { List (SiteNo × Silence) };

    ghost view = { λ s. s.sites.items };
}

// The place of what is known of a site.
fn place_of(sites: &[(SiteNo, Silence)], site: SiteNo) -> Option<usize>
    ensures { IsPlace sites.now site result }
{
    for (place, one) in sites.iter().enumerate() {
        if one.0 == site {
            return Some(place);
        }
    }
    None
}

// Whether a message may be sent to a site.
fn may_send(sites: &mut Vec<(SiteNo, Silence)>, site: SiteNo) -> bool
    ensures { MaySend sites.old.items site result sites.new.items }
{
    let Some(place) = place_of(sites, site) else {
        return true;
    };
    let (passes, silence) = sites[place].1.sent();
    sites[place] = (site, silence);
    passes
}

// Whether a frame is a message.
fn carries_message(frame: &SiteFrame) -> bool
    ensures { result ≡ carries_message frame.now }
{
    matches!(frame, SiteFrame::Data(_))
}

// Whether a frame may be sent. Of those for a silent site only messages are held back, which are
// many.
fn may_pass(sites: &mut Vec<(SiteNo, Silence)>, frame: &(DomainNo, SiteNo, SiteFrame)) -> bool
    ensures { MayPass sites.old.items frame.now result sites.new.items }
{
    if !carries_message(&frame.2) {
        return true;
    }
    may_send(sites, frame.1)
}

// Keeps of these frames those that may be sent.
fn keep_passing(sites: &mut Vec<(SiteNo, Silence)>, frames: &mut Vec<(DomainNo, SiteNo, SiteFrame)>)
    ensures { Pass sites.old.items frames.old.items frames.new.items sites.new.items }
{
    let mut kept = 0;
    for place in 0..frames.len() {
        if !may_pass(sites, &frames[place]) {
            continue;
        }
        frames.swap(kept, place);
        kept += 1;
    }
    frames.truncate(kept);
}

// A tick later.
fn all_ticked(sites: &mut [(SiteNo, Silence)])
    ensures { sites.new ≡ map (λ one. (one.0, ticked one.1)) sites.old }
{
    for one in sites.iter_mut() {
        one.1 = one.1.ticked();
    }
}

// Notes that a site acknowledged a message. Answers whether it was silent.
fn end_silence(sites: &mut Vec<(SiteNo, Silence)>, site: SiteNo) -> bool
    ensures silent { result ≡ is_silent_site sites.old.items site }
    ensures ended { Ends sites.old.items site sites.new.items }
{
    let Some(place) = place_of(sites, site) else {
        return false;
    };
    let silence = sites[place].1;
    sites[place] = (
        site,
        Silence {
            waited: None,
            room: silence.room,
        },
    );
    silence.is_silent()
}

impl Silences {
    /// Nothing is known of any site.
    pub fn new(alloc: Global) -> Self
        ensures { result ≡ [] }
    {
        Silences {
            sites: Vec::new(alloc),
        }
    }

    /// Adds a site that was sent nothing.
    pub fn add(&mut self, site: SiteNo) -> Result<(), NoMemory>
        ensures ok { OnOk result (self.new ≡ self.old ++ (site, new_silence) ∷ []) }
        ensures err { OnErr result (self.new ≡ self.old) }
    {
        self.sites.push((site, Silence::new()))?;
        Ok(())
    }

    /// Notes that time goes by.
    pub fn tick(&mut self)
        ensures { self.new ≡ map (λ one. (one.0, ticked one.1)) self.old }
    {
        all_ticked(&mut self.sites);
    }

    /// Notes that a site acknowledged a message. Answers whether it was silent.
    pub fn end(&mut self, site: SiteNo) -> bool
        ensures silent { result ≡ is_silent_site self.old site }
        ensures ended { Ends self.old site self.new }
    {
        end_silence(&mut self.sites, site)
    }

    /// Leaves out the frames of an event that may not be sent: messages for silent sites beyond
    /// the first few.
    pub fn pass(&mut self, outs: &mut Outs)
        ensures passed { Pass self.old outs.old.frames outs.new.frames self.new }
        ensures silent { OnlySilentWait self.old outs.old.frames outs.new.frames }
        ensures rest { outs.new ≡ record outs.old { frames = outs.new.frames } }
    {
        let alloc = outs.frames.alloc();
        let mut frames = mem::replace(&mut outs.frames, List::new(alloc)).into_vec();
        keep_passing(&mut self.sites, &mut frames);
        outs.frames = List::from_vec(frames);
    }
}
