ghost use Rattle.std.specs.Prelude.{◌≡◌};
ghost use Rattle.cast_script.specs.Words.{texts};
ghost use Rattle.cast_script.specs.WordReadings.{Gives};
ghost use Rattle.cast_script.specs.LineReadings.{bad_words, cast_words, frame_words, gone_words};
ghost use Rattle.cast_script.specs.LineReadings.{join_words, leave_words, open_words, pass_words};
ghost use Rattle.cast_script.specs.LineReadings.{quota_event_words, request_parts, request_event};
ghost use Rattle.cast_script.specs.LineReadings.{suspect_words, take_words, tick_words};

use crate::words::{
    LineFault, Reason, bytes_word, domain_word, group_word, long_number, number, proc_word,
    quota_name_word, site_word,
};
use bytes::Bytes;
use cast_events::Event;
use cast_frame::{FrameFault, decode_site};
use cast_message::{CastKind, Command, Request};
use cast_types::{DomainNo, GroupNo};
use std::alloc::Global;

// What each request of a session says.
#[derive(Clone, Copy)]
struct RequestParts {
    domain: DomainNo,
    serial: u32,
    tag: u32,
    group: GroupNo,
}

impl RequestParts {
    // The event that is a request with these parts.
    fn event(self, request: Request) -> Event
        ensures { result ≡ request_event self request }
    {
        Event::Command {
            domain: self.domain,
            serial: self.serial,
            command: Command::Request(request),
        }
    }
}

/// `open D`, from the second word on
#[tactic(auto, unfolding(crate::specs::LineReadings::open_words))]
pub fn open(words: &[&str]) -> Result<Event, Reason>
    ensures { result ≡ open_words (texts words.now) }
{
    let [domain] = words else {
        return Err(Reason::WrongCount);
    };
    Ok(Event::Open(domain_word(domain)?))
}

/// `join D K TAG G`, from the second word on
#[tactic(auto, unfolding(crate::specs::LineReadings::join_words))]
pub fn join(words: &[&str]) -> Result<Event, Reason>
    ensures { result ≡ join_words (texts words.now) }
{
    let [domain, serial, tag, group] = words else {
        return Err(Reason::WrongCount);
    };
    let parts = request_parts(domain, serial, tag, group)?;
    Ok(parts.event(Request::Join {
        tag: parts.tag,
        group: parts.group,
    }))
}

/// `leave D K TAG G`, from the second word on
#[tactic(auto, unfolding(crate::specs::LineReadings::leave_words))]
pub fn leave(words: &[&str]) -> Result<Event, Reason>
    ensures { result ≡ leave_words (texts words.now) }
{
    let [domain, serial, tag, group] = words else {
        return Err(Reason::WrongCount);
    };
    let parts = request_parts(domain, serial, tag, group)?;
    Ok(parts.event(Request::Leave {
        tag: parts.tag,
        group: parts.group,
    }))
}

/// `cast D K TAG G HEX` or `abcast D K TAG G HEX`, from the second word on
#[tactic(auto, unfolding(crate::specs::LineReadings::cast_words))]
pub fn cast(alloc: Global, words: &[&str], kind: CastKind) -> Result<Event, LineFault>
    ensures { Gives result (cast_words kind (texts words.now)) }
{
    let [domain, serial, tag, group, payload] = words else {
        return Err(LineFault::Refused(Reason::WrongCount));
    };
    let parts = request_parts(domain, serial, tag, group)?;
    Ok(parts.event(Request::Cast {
        tag: parts.tag,
        group: parts.group,
        kind,
        payload: Bytes::from_vec(bytes_word(alloc, payload)?)?,
    }))
}

/// `pass D K TAG G P`, from the second word on
#[tactic(auto, unfolding(crate::specs::LineReadings::pass_words))]
pub fn pass(words: &[&str]) -> Result<Event, Reason>
    ensures { result ≡ pass_words (texts words.now) }
{
    let [domain, serial, tag, group, to] = words else {
        return Err(Reason::WrongCount);
    };
    let parts = request_parts(domain, serial, tag, group)?;
    Ok(parts.event(Request::Pass {
        tag: parts.tag,
        group: parts.group,
        to: proc_word(to)?,
    }))
}

// `D K TAG G`
#[tactic(auto, unfolding(crate::specs::LineReadings::request_parts))]
fn request_parts(domain: &str, serial: &str, tag: &str, group: &str) -> Result<RequestParts, Reason>
    ensures { result ≡ request_parts domain.now serial.now tag.now group.now }
{
    Ok(RequestParts {
        domain: domain_word(domain)?,
        serial: number(serial)?,
        tag: number(tag)?,
        group: group_word(group)?,
    })
}

/// `bad D K`, from the second word on
#[tactic(auto, unfolding(crate::specs::LineReadings::bad_words))]
pub fn bad(words: &[&str]) -> Result<Event, Reason>
    ensures { result ≡ bad_words (texts words.now) }
{
    let [domain, serial] = words else {
        return Err(Reason::WrongCount);
    };
    Ok(Event::Command {
        domain: domain_word(domain)?,
        serial: number(serial)?,
        command: Command::Bad,
    })
}

/// `gone D K`, from the second word on
#[tactic(auto, unfolding(crate::specs::LineReadings::gone_words))]
pub fn gone(words: &[&str]) -> Result<Event, Reason>
    ensures { result ≡ gone_words (texts words.now) }
{
    let [domain, serial] = words else {
        return Err(Reason::WrongCount);
    };
    Ok(Event::Gone {
        domain: domain_word(domain)?,
        serial: number(serial)?,
    })
}

/// `frame HEX`, from the second word on
#[tactic(auto, unfolding(crate::specs::LineReadings::frame_words))]
pub fn frame_event(alloc: Global, words: &[&str]) -> Result<Event, LineFault>
    ensures { Gives result (frame_words (texts words.now)) }
{
    let [frame] = words else {
        return Err(LineFault::Refused(Reason::WrongCount));
    };
    let bytes = bytes_word(alloc, frame)?;
    match decode_site(alloc, &bytes) {
        Ok((domain, site, frame)) => Ok(Event::Frame(domain, site, frame)),
        Err(FrameFault::NoMemory) => Err(LineFault::NoMemory),
        Err(_) => Err(LineFault::Refused(Reason::BadFrame)),
    }
}

/// `suspect D S`, from the second word on
#[tactic(auto, unfolding(crate::specs::LineReadings::suspect_words))]
pub fn suspect(words: &[&str]) -> Result<Event, Reason>
    ensures { result ≡ suspect_words (texts words.now) }
{
    let [domain, site] = words else {
        return Err(Reason::WrongCount);
    };
    Ok(Event::Suspect(domain_word(domain)?, site_word(site)?))
}

/// `quota D NAME N`, from the second word on
#[tactic(auto, unfolding(crate::specs::LineReadings::quota_event_words))]
pub fn quota(words: &[&str]) -> Result<Event, Reason>
    ensures { result ≡ quota_event_words (texts words.now) }
{
    let [domain, name, value] = words else {
        return Err(Reason::WrongCount);
    };
    Ok(Event::Quota {
        domain: domain_word(domain)?,
        name: quota_name_word(name)?,
        value: number(value)?,
    })
}

/// `take D K N`, from the second word on
#[tactic(auto, unfolding(crate::specs::LineReadings::take_words))]
pub fn take(words: &[&str]) -> Result<Event, Reason>
    ensures { result ≡ take_words (texts words.now) }
{
    let [domain, serial, most] = words else {
        return Err(Reason::WrongCount);
    };
    Ok(Event::Take {
        domain: domain_word(domain)?,
        serial: number(serial)?,
        most: number(most)?,
    })
}

/// `tick N`, from the second word on
#[tactic(auto, unfolding(crate::specs::LineReadings::tick_words))]
pub fn tick(words: &[&str]) -> Result<Event, Reason>
    ensures { result ≡ tick_words (texts words.now) }
{
    let [moment] = words else {
        return Err(Reason::WrongCount);
    };
    Ok(Event::Tick(long_number(moment)?))
}
