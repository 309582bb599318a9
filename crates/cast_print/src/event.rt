ghost use Rattle.std.specs.Prelude.{◌≡◌, ◌++◌, OnOk, OnErr};
ghost use Rattle.std.specs.String.{string_bytes};
ghost use Rattle.cast_script.specs.Words.{quota_name_text};
ghost use Rattle.cast_script.specs.Lines.{cast_text};
ghost use Rattle.cast_print.specs.Scripts.{event_text, line_text, request_words};
ghost use Rattle.cast_events.specs.declared.event.Event.TheVariants as event;

use crate::log::{print_bytes, print_payload, print_proc};
use cast_events::Event;
use cast_frame::encode_site;
use cast_message::{CastKind, Command, Request, SiteFrame};
use cast_quota::QuotaName;
use cast_types::{DomainNo, NoMemory, SiteNo};
use std::alloc::Global;

/// Adds the line of an event. `NoMemory` changes nothing. The line is made in a text whose room is
/// kept for the next one.
pub fn add_event(
    alloc: Global,
    text: &mut String,
    line: &mut String,
    event: &Event,
) -> Result<(), NoMemory>
    ensures ok { OnOk result
        (string_bytes text.new ≡ string_bytes text.old ++ event_text event.now) }
    ensures err { OnErr result (string_bytes text.new ≡ string_bytes text.old) }
{
    line.clear();
    put_event(alloc, line, event)?;
    text.push_str(line.as_str())
}

fn put_event(alloc: Global, text: &mut String, event: &Event) -> Result<(), NoMemory>
    ensures { OnOk result (string_bytes text.new ≡ string_bytes text.old ++ event_text event.now) }
{
    match event {
        Event::Open(domain) => {
            let number = domain.0;
            writeln!(text, "open {number}")
        }
        Event::Command {
            domain,
            serial,
            command: Command::Request(request),
        } => put_request(alloc, text, *domain, *serial, request),
        Event::Command {
            domain,
            serial,
            command: Command::Bad,
        } => {
            let number = domain.0;
            writeln!(text, "bad {number} {serial}")
        }
        Event::Gone { domain, serial } => {
            let number = domain.0;
            writeln!(text, "gone {number} {serial}")
        }
        Event::Frame(domain, site, frame) => put_frame(alloc, text, *domain, *site, frame),
        Event::Suspect(domain, site) => {
            let number = domain.0;
            let suspected = site.0;
            writeln!(text, "suspect {number} {suspected}")
        }
        Event::Quota {
            domain,
            name,
            value,
        } => {
            let number = domain.0;
            let quota = quota_word(*name);
            writeln!(text, "quota {number} {quota} {value}")
        }
        Event::Take {
            domain,
            serial,
            most,
        } => {
            let number = domain.0;
            writeln!(text, "take {number} {serial} {most}")
        }
        Event::Tick(now) => writeln!(text, "tick {now}"),
    }
}

fn put_request(
    alloc: Global,
    text: &mut String,
    domain: DomainNo,
    serial: u32,
    request: &Request,
) -> Result<(), NoMemory>
    ensures { OnOk result (string_bytes text.new
        ≡ string_bytes text.old ++ line_text (request_words domain serial request.now)) }
{
    let number = domain.0;
    match request {
        Request::Join { tag, group } => {
            let joined = group.0;
            writeln!(text, "join {number} {serial} {tag} {joined}")
        }
        Request::Leave { tag, group } => {
            let left = group.0;
            writeln!(text, "leave {number} {serial} {tag} {left}")
        }
        Request::Cast {
            tag,
            group,
            kind,
            payload,
        } => {
            let word = cast_word(*kind);
            let receiver = group.0;
            write!(text, "{word} {number} {serial} {tag} {receiver} ")?;
            print_payload(alloc, text, payload.as_slice())?;
            text.push_str("\n")
        }
        Request::Pass { tag, group, to } => {
            let passed = group.0;
            write!(text, "pass {number} {serial} {tag} {passed} ")?;
            print_proc(text, *to)?;
            text.push_str("\n")
        }
    }
}

// `frame HEX`
fn put_frame(
    alloc: Global,
    text: &mut String,
    domain: DomainNo,
    site: SiteNo,
    frame: &SiteFrame,
) -> Result<(), NoMemory>
    ensures { OnOk result (string_bytes text.new
        ≡ string_bytes text.old ++ event_text (event.Frame domain site frame.now)) }
{
    let bytes = encode_site(alloc, domain, site, frame)?;
    text.push_str("frame ")?;
    print_bytes(alloc, text, bytes.as_slice())?;
    text.push_str("\n")
}

// The first word of the line of a cast.
fn cast_word(kind: CastKind) -> &'static str
    ensures { result.now ≡ cast_text kind }
{
    match kind {
        CastKind::Causal => "cast",
        CastKind::Atomic => "abcast",
    }
}

// The word that names a quota.
fn quota_word(name: QuotaName) -> &'static str
    ensures { result.now ≡ quota_name_text name }
{
    match name {
        QuotaName::Sessions => "sessions",
        QuotaName::Held => "held",
        QuotaName::Outbox => "outbox",
        QuotaName::Resend => "resend",
    }
}
