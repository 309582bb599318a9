ghost use Rattle.std.specs.Prelude.{◌≡◌, ◌++◌, IfOk, OnOk, codes};
ghost use Rattle.std.specs.List.{flat_map};
ghost use Rattle.std.specs.String.{string_bytes};
ghost use Rattle.hex.specs.Hex.{encode_lower};
ghost use Rattle.cast_print.specs.Logs.{answer_line, frame_line, given_text};
ghost use Rattle.cast_print.specs.Logs.{halted_text, kind_text, log_text, member_text};
ghost use Rattle.cast_print.specs.Logs.{members_text, numbered_texts, payload_text};
ghost use Rattle.cast_print.specs.Logs.{push_line, push_text, session_text, uid_text};
ghost use Rattle.cast_script.specs.Words.{proc_text};

use cast_events::{Fault, Given, Log, Taken};
use cast_frame::encode_site;
use cast_message::{CastKind, Membership, Push, SiteFrame};
use cast_types::{DomainNo, List, NoMemory, Proc, Refusal, SiteNo, Uid};
use std::alloc::Global;

// So many bytes are made digits at once.
const PART: usize = 256;

/// The text of a log at a site: the refused events, and then for each domain its pushes, its frames
/// and whether it was halted.
pub fn print(alloc: Global, site: SiteNo, log: &Log) -> Result<String, NoMemory>
    ensures { IfOk result (λ text. string_bytes text ≡ log_text site log.now) }
{
    let mut text = String::new(alloc);
    print_answers(&mut text, log.answers.as_slice())?;
    for given in log.given.as_slice() {
        print_given(alloc, &mut text, site, given)?;
    }
    Ok(text)
}

// A line for each event that was refused or that names no domain, numbered from 1.
fn print_answers(text: &mut String, answers: &[Result<Taken, Fault>]) -> Result<(), NoMemory>
    ensures { OnOk result (string_bytes text.new
        ≡ string_bytes text.old ++ numbered_texts answer_line 1 answers.now) }
{
    for (index, answer) in answers.iter().enumerate() {
        print_answer(text, index + 1, answer)?;
    }
    Ok(())
}

fn print_answer(
    text: &mut String,
    number: usize,
    answer: &Result<Taken, Fault>,
) -> Result<(), NoMemory>
    ensures { OnOk result
        (string_bytes text.new ≡ string_bytes text.old ++ answer_line number answer.now) }
{
    match answer {
        Ok(Taken::Refused(refusal)) => {
            let code = refusal.number();
            writeln!(text, "event {number} refused {code}")
        }
        Ok(Taken::Nothing | Taken::Opened(_) | Taken::Entries(_)) => Ok(()),
        Err(Fault::NoDomain) => writeln!(text, "event {number} no domain"),
        Err(Fault::NoMemory | Fault::Halted(_)) => Ok(()),
    }
}

// What a domain has given.
fn print_given(
    alloc: Global,
    text: &mut String,
    site: SiteNo,
    given: &Given,
) -> Result<(), NoMemory>
    ensures { OnOk result
        (string_bytes text.new ≡ string_bytes text.old ++ given_text site given.now) }
{
    print_sessions(alloc, text, given.domain, given.pushes.as_slice())?;
    print_sent(alloc, text, given.domain, site, given.sent.as_slice())?;
    print_halted(text, given.domain, given.halted)
}

// The pushes of each session, whose serials count from 1.
fn print_sessions(
    alloc: Global,
    text: &mut String,
    domain: DomainNo,
    sessions: &[List<Push>],
) -> Result<(), NoMemory>
    ensures { OnOk result (string_bytes text.new
        ≡ string_bytes text.old ++ numbered_texts (session_text domain) 1 sessions.now) }
{
    for (index, pushes) in sessions.iter().enumerate() {
        print_session(alloc, text, domain, index + 1, pushes.as_slice())?;
    }
    Ok(())
}

// A line for each push of a session.
fn print_session(
    alloc: Global,
    text: &mut String,
    domain: DomainNo,
    serial: usize,
    pushes: &[Push],
) -> Result<(), NoMemory>
    ensures { OnOk result
        (string_bytes text.new ≡ string_bytes text.old ++ session_text domain serial pushes.now) }
{
    for push in pushes {
        print_push_line(alloc, text, domain, serial, push)?;
    }
    Ok(())
}

fn print_push_line(
    alloc: Global,
    text: &mut String,
    domain: DomainNo,
    serial: usize,
    push: &Push,
) -> Result<(), NoMemory>
    ensures { OnOk result
        (string_bytes text.new ≡ string_bytes text.old ++ push_line domain serial push.now) }
{
    let number = domain.0;
    write!(text, "push {number} {serial} ")?;
    print_push(alloc, text, push)?;
    text.push_str("\n")
}

fn print_push(alloc: Global, text: &mut String, push: &Push) -> Result<(), NoMemory>
    ensures { OnOk result (string_bytes text.new ≡ string_bytes text.old ++ push_text push.now) }
{
    match push {
        Push::Opened(process) => {
            text.push_str("opened ")?;
            print_proc(text, *process)
        }
        Push::Reply { tag, refusal } => print_reply(text, *tag, *refusal),
        Push::View {
            group,
            view,
            members,
        } => {
            let number = group.0;
            write!(text, "view {number} {view}")?;
            print_members(text, members)
        }
        Push::Deliver { id, kind, payload } => {
            text.push_str("deliver ")?;
            print_uid(text, *id)?;
            print_kind(text, *kind)?;
            print_payload(alloc, text, payload.as_slice())
        }
        Push::Ejected { group, view } => {
            let number = group.0;
            write!(text, "ejected {number} {view}")
        }
        Push::Denied { group, refusal } => {
            let number = group.0;
            let code = refusal.number();
            write!(text, "denied {number} {code}")
        }
        Push::Closed(refusal) => {
            let code = refusal.number();
            write!(text, "closed {code}")
        }
    }
}

fn print_reply(text: &mut String, tag: u32, refusal: Option<Refusal>) -> Result<(), NoMemory>
    ensures { OnOk result
        (string_bytes text.new ≡ string_bytes text.old ++ push_text (Push.Reply tag refusal)) }
{
    let code = match refusal {
        Some(refused) => refused.number(),
        None => 0,
    };
    write!(text, "reply {tag} {code}")
}

// ` holder 1.1 members 1.1 2.1`
fn print_members(text: &mut String, members: &Membership) -> Result<(), NoMemory>
    ensures { OnOk result
        (string_bytes text.new ≡ string_bytes text.old ++ members_text members.now) }
{
    if let Some(holder) = members.holder() {
        text.push_str(" holder ")?;
        print_proc(text, holder)?;
    }
    text.push_str(" members")?;
    print_procs(text, members.list())
}

// ` 1.1 2.1`
fn print_procs(text: &mut String, procs: &[Proc]) -> Result<(), NoMemory>
    ensures { OnOk result
        (string_bytes text.new ≡ string_bytes text.old ++ flat_map member_text procs.now) }
{
    for process in procs {
        text.push_str(" ")?;
        print_proc(text, *process)?;
    }
    Ok(())
}

/// Adds a process, as `1.1`: its site and its serial there.
pub(crate) fn print_proc(text: &mut String, process: Proc) -> Result<(), NoMemory>
    ensures { OnOk result (string_bytes text.new ≡ string_bytes text.old ++ proc_text process) }
{
    let site = process.site.0;
    let serial = process.serial;
    write!(text, "{site}.{serial}")
}

// `1/1/1.1/1`
fn print_uid(text: &mut String, id: Uid) -> Result<(), NoMemory>
    ensures { OnOk result (string_bytes text.new ≡ string_bytes text.old ++ uid_text id) }
{
    let group = id.group.0;
    let view = id.view;
    let count = id.count;
    write!(text, "{group}/{view}/")?;
    print_proc(text, id.proc)?;
    write!(text, "/{count}")
}

// ` causal ` or ` atomic `
fn print_kind(text: &mut String, kind: CastKind) -> Result<(), NoMemory>
    ensures { OnOk result (string_bytes text.new
        ≡ string_bytes text.old ++ (codes " " ++ (kind_text kind ++ codes " "))) }
{
    text.push_str(match kind {
        CastKind::Causal => " causal ",
        CastKind::Atomic => " atomic ",
    })
}

/// Adds bytes in lower-case hexadecimal, `-` where there are none.
pub(crate) fn print_payload(alloc: Global, text: &mut String, bytes: &[u8]) -> Result<(), NoMemory>
    ensures { OnOk result
        (string_bytes text.new ≡ string_bytes text.old ++ payload_text bytes.now) }
{
    if bytes.is_empty() {
        text.push_str("-")
    } else {
        print_bytes(alloc, text, bytes)
    }
}

/// Adds bytes in lower-case hexadecimal. Little memory is taken at a time, which allocators keep
/// for each thread: threads that print much do not wait for each other then.
pub(crate) fn print_bytes(alloc: Global, text: &mut String, bytes: &[u8]) -> Result<(), NoMemory>
    ensures { OnOk result
        (string_bytes text.new ≡ string_bytes text.old ++ encode_lower bytes.now) }
{
    let mut rest = bytes;
    while !rest.is_empty() {
        let (part, behind) = rest.split_at(rest.len().min(PART));
        text.push_str(hex::encode(alloc, part)?.as_str())?;
        rest = behind;
    }
    Ok(())
}

// A line for each frame that was sent.
fn print_sent(
    alloc: Global,
    text: &mut String,
    domain: DomainNo,
    site: SiteNo,
    sent: &[(SiteNo, SiteFrame)],
) -> Result<(), NoMemory>
    ensures { OnOk result (string_bytes text.new
        ≡ string_bytes text.old ++ flat_map (frame_line domain site) sent.now) }
{
    for (receiver, frame) in sent {
        print_frame(alloc, text, domain, site, *receiver, frame)?;
    }
    Ok(())
}

fn print_frame(
    alloc: Global,
    text: &mut String,
    domain: DomainNo,
    site: SiteNo,
    receiver: SiteNo,
    frame: &SiteFrame,
) -> Result<(), NoMemory>
    ensures { OnOk result (string_bytes text.new
        ≡ string_bytes text.old ++ frame_line domain site (receiver, frame.now)) }
{
    let number = domain.0;
    let to = receiver.0;
    let bytes = encode_site(alloc, domain, site, frame)?;
    write!(text, "send {number} {to} ")?;
    print_bytes(alloc, text, bytes.as_slice())?;
    text.push_str("\n")
}

fn print_halted(text: &mut String, domain: DomainNo, halted: bool) -> Result<(), NoMemory>
    ensures { OnOk result
        (string_bytes text.new ≡ string_bytes text.old ++ halted_text domain halted) }
{
    if halted {
        let number = domain.0;
        writeln!(text, "halted {number}")
    } else {
        Ok(())
    }
}
