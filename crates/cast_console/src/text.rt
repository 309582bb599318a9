ghost use Rattle.std.specs.Prelude.{◌≡◌, ◌++◌, IfOk, OnOk};
ghost use Rattle.std.specs.List.{flat_map};
ghost use Rattle.std.specs.String.{string_bytes};
ghost use Rattle.cast_console.specs.Texts.{answered_text, datagrams_text, domain_line};
ghost use Rattle.cast_console.specs.Texts.{frozen_text, group_line, groups_text, line_begun};
ghost use Rattle.cast_console.specs.Texts.{member_text, outcome_text, proc_text};
ghost use Rattle.cast_console.specs.Texts.{record_text, shown_text, state_text, view_text};

use cast_events::{Datagrams, Fault, Recording, Taken};
use cast_pool::Outcome;
use cast_table::{GroupShown, Shown};
use cast_types::{DomainNo, NoMemory, Proc};
use std::alloc::Global;

/// Adds a line feed, where a line stands before.
pub fn begin_line(text: &mut String) -> Result<(), NoMemory>
    ensures { OnOk result (string_bytes text.new ≡ line_begun (string_bytes text.old)) }
{
    if text.is_empty() {
        return Ok(());
    }
    text.push_str("\n")
}

fn state_word(halted: bool) -> &'static str
    ensures { result.now ≡ state_text halted }
{
    if halted { "halted" } else { "running" }
}

/// `domain D running` or `domain D halted`.
pub fn put_domain(text: &mut String, number: DomainNo, shown: &Shown) -> Result<(), NoMemory>
    ensures { OnOk result
        (string_bytes text.new ≡ string_bytes text.old ++ domain_line number shown.now) }
{
    let domain = number.0;
    let state = state_word(shown.halted);
    write!(text, "domain {domain} {state}")
}

/// `domain D sessions N held N casts N moment N`
pub fn shown_text(alloc: Global, number: DomainNo, shown: &Shown) -> Result<String, NoMemory>
    ensures { IfOk result (λ text. string_bytes text ≡ shown_text number shown.now) }
{
    let domain = number.0;
    let Shown {
        sessions,
        held,
        casts,
        moment,
        ..
    } = shown;
    format!(in alloc;
        "domain {domain} sessions {sessions} held {held} casts {casts} moment {moment}"
    )
}

// As in `1.1`.
fn put_process(text: &mut String, process: Proc) -> Result<(), NoMemory>
    ensures { OnOk result (string_bytes text.new ≡ string_bytes text.old ++ proc_text process) }
{
    let site = process.site.0;
    let serial = process.serial;
    write!(text, "{site}.{serial}")
}

// As in ` 1.1 2.1`.
fn put_members(text: &mut String, members: &[Proc]) -> Result<(), NoMemory>
    ensures { OnOk result
        (string_bytes text.new ≡ string_bytes text.old ++ flat_map member_text members.now) }
{
    for member in members {
        text.push_str(" ")?;
        put_process(text, *member)?;
    }
    Ok(())
}

// ` frozen` or ` open`.
fn frozen_word(frozen: bool) -> &'static str
    ensures { result.now ≡ frozen_text frozen }
{
    if frozen { " frozen" } else { " open" }
}

// The view of a group, or that there is none.
fn put_view(text: &mut String, group: &GroupShown) -> Result<(), NoMemory>
    ensures { OnOk result (string_bytes text.new
        ≡ string_bytes text.old ++ view_text group.now.holder group.now.members group.now.frozen) }
{
    let Some(holder) = group.holder else {
        return text.push_str(" none");
    };
    text.push_str(" holder ")?;
    put_process(text, holder)?;
    text.push_str(" members")?;
    put_members(text, group.members.as_slice())?;
    text.push_str(frozen_word(group.frozen))
}

// The line of a group.
fn put_group(text: &mut String, group: &GroupShown) -> Result<(), NoMemory>
    ensures { OnOk result (string_bytes text.new ≡ string_bytes text.old ++ group_line group.now) }
{
    let name = group.group.0;
    let view = group.number;
    write!(text, "group {name} view {view}")?;
    put_view(text, group)
}

/// The lines of groups.
pub fn groups_text(alloc: Global, groups: &[GroupShown]) -> Result<String, NoMemory>
    ensures { IfOk result (λ text. string_bytes text ≡ groups_text groups.now) }
{
    let mut text = String::new(alloc);
    for group in groups {
        begin_line(&mut text)?;
        put_group(&mut text, group)?;
    }
    Ok(text)
}

// What is said of the answer to an event.
fn answered_text(alloc: Global, answer: &Result<Taken, Fault>) -> Result<String, NoMemory>
    ensures { IfOk result (λ text. string_bytes text ≡ answered_text answer.now) }
{
    match answer {
        Ok(Taken::Refused(refusal)) => {
            let number = refusal.number();
            format!(in alloc; "refused {number}")
        }
        Ok(Taken::Nothing | Taken::Opened(_) | Taken::Entries(_)) => String::from_str(alloc, "ok"),
        Err(Fault::NoMemory) => String::from_str(alloc, "no memory"),
        Err(Fault::NoDomain) => String::from_str(alloc, NO_DOMAIN),
        Err(Fault::Halted(domain)) => {
            let number = domain.0;
            format!(in alloc; "halted {number}")
        }
    }
}

/// What is said of an event that the console handed in.
pub fn outcome_text(alloc: Global, outcome: &Outcome) -> Result<String, NoMemory>
    ensures { IfOk result (λ text. string_bytes text ≡ outcome_text outcome.now) }
{
    match outcome {
        Outcome::Answered(answer, _) => answered_text(alloc, answer),
        Outcome::Shown(_) | Outcome::Undecoded(_) => String::from_str(alloc, "ok"),
    }
}

/// `datagrams sent N received N lost N undecoded N`
pub fn datagrams_text(alloc: Global, datagrams: Datagrams) -> Result<String, NoMemory>
    ensures { IfOk result (λ text. string_bytes text ≡ datagrams_text datagrams) }
{
    let Datagrams {
        sent,
        received,
        lost,
        undecoded,
    } = datagrams;
    format!(in alloc; "datagrams sent {sent} received {received} lost {lost} undecoded {undecoded}")
}

/// `record off`, `record running waiting N lost N` or `record ended`
pub fn record_text(alloc: Global, recording: Recording) -> Result<String, NoMemory>
    ensures { IfOk result (λ text. string_bytes text ≡ record_text recording) }
{
    match recording {
        Recording::Off => String::from_str(alloc, "record off"),
        Recording::Running { waiting, lost } => {
            format!(in alloc; "record running waiting {waiting} lost {lost}")
        }
        Recording::Ended => String::from_str(alloc, "record ended"),
    }
}

/// What is said where no domain has the number.
pub const NO_DOMAIN: &str = "no domain";
