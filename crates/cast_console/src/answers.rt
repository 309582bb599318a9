ghost use Rattle.std.specs.Prelude.{◌≡◌, ◌++◌, ◌<◌, IfOk, OnOk, codes};
ghost use Rattle.std.specs.Fmt.{decimal};
ghost use Rattle.std.specs.Option.{option_to_list};
ghost use Rattle.std.specs.String.{string_bytes};
ghost use Rattle.cast_console.specs.Lines.{fault_number, line_of};
ghost use Rattle.cast_console.specs.Texts.{domains_text, group_lines, line_at, lines_after};
ghost use Rattle.cast_console.specs.Texts.{retire_text, show_text, trace_text};
ghost use Rattle.cast_console.specs.Answers.{HandsOn, IsServed, LeavesAll, answer_text};
ghost use Rattle.cast_console.specs.Answers.{asked_event, done_text, event_of, line_text};

use crate::line::{Line, LineFault, parse};
use crate::said::Answer;
use crate::text::{
    NO_DOMAIN, begin_line, datagrams_text, groups_text, outcome_text, put_domain, record_text,
    shown_text,
};
use cast_events::{Event, Told};
use cast_pool::{Asked, Done, Kept, Raw, Worked, decode};
use cast_table::Table;
use cast_types::{DomainNo, NoMemory};
use std::alloc::Global;
use std::sync::ledger::Ledger;

// An answer of a line that has no event.
fn text_answer(text: Result<String, NoMemory>) -> Answer
    ensures text { result.text ≡ text }
    ensures done { result.done ≡ None }
{
    Answer { text, done: None }
}

// Adds the line of a domain, where one has the number.
fn put_line_at(text: &mut String, table: &Table, number: u8) -> Result<(), NoMemory>
    ensures { OnOk result (string_bytes text.new
        ≡ lines_after (string_bytes text.old) (option_to_list (line_at table.now number))) }
{
    let Some(shown) = table.show(DomainNo(number)) else {
        return Ok(());
    };
    begin_line(text)?;
    put_domain(text, DomainNo(number), &shown)
}

// The lines of all domains, by rising number.
fn domains_text(alloc: Global, table: &Table) -> Result<String, NoMemory>
    ensures { IfOk result (λ text. string_bytes text ≡ domains_text table.now) }
{
    let mut text = String::new(alloc);
    for number in 1..=255u8 {
        put_line_at(&mut text, table, number)?;
    }
    Ok(text)
}

// What a domain shows.
fn show_text(alloc: Global, table: &Table, number: DomainNo) -> Result<String, NoMemory>
    ensures { IfOk result (λ text. string_bytes text ≡ show_text number table.now) }
{
    match table.show(number) {
        Some(shown) => shown_text(alloc, number, &shown),
        None => String::from_str(alloc, NO_DOMAIN),
    }
}

// What a domain shows of its groups.
fn group_lines(alloc: Global, table: &Table, number: DomainNo) -> Result<String, NoMemory>
    ensures { IfOk result (λ text. string_bytes text ≡ group_lines number table.now) }
{
    match table.groups(alloc, number)? {
        Some(groups) => groups_text(alloc, groups.as_slice()),
        None => String::from_str(alloc, NO_DOMAIN),
    }
}

// Whether there is a domain that is to retire.
fn retire_text(alloc: Global, table: &Table, number: DomainNo) -> Result<String, NoMemory>
    ensures { IfOk result (λ text. string_bytes text ≡ retire_text number table.now) }
{
    match table.show(number) {
        Some(_) => String::from_str(alloc, "ok"),
        None => String::from_str(alloc, NO_DOMAIN),
    }
}

// How many events were taken.
fn trace_text<L: Ledger>(alloc: Global, kept: &Kept<L>) -> Result<String, NoMemory>
    ensures { IfOk result (λ text. string_bytes text ≡ trace_text kept.now) }
{
    let events = kept.events();
    let len = kept.trace_len();
    format!(in alloc; "events {events} kept {len}")
}

// Why a line is none.
fn fault_text(alloc: Global, fault: LineFault) -> Result<String, NoMemory>
    ensures { IfOk result
        (λ text. string_bytes text ≡ codes "fault " ++ decimal (fault_number fault)) }
{
    let number = fault.number();
    format!(in alloc; "fault {number}")
}

// Serves an event.
fn serve<L: Ledger>(alloc: Global, kept: &mut Kept<L>, mine: &mut Worked<L>, event: Event) -> Done
    requires { 0 < mine.old.parts }
    ensures done { IsServed event result kept.old kept.new mine.old.taken mine.new.taken }
    ensures parts { mine.new.parts ≡ mine.old.parts }
{
    let raw = Raw {
        number: 0,
        asked: Asked::Event(event),
    };
    match decode(alloc, raw) {
        Ok(job) => kept.serve_one(mine, job),
        Err(done) => done,
    }
}

// Serves an event, and says what came of it.
fn serve_event<L: Ledger>(
    alloc: Global,
    kept: &mut Kept<L>,
    mine: &mut Worked<L>,
    event: Event,
) -> Answer
    requires { 0 < mine.old.parts }
    ensures text { IfOk result.text (λ text. string_bytes text ≡ done_text result.done) }
    ensures done { HandsOn (Some event)
        result.done kept.old kept.new mine.old.taken mine.new.taken }
    ensures parts { mine.new.parts ≡ mine.old.parts }
{
    let done = serve(alloc, kept, mine, event);
    let text = outcome_text(alloc, done.outcome());
    Answer {
        text,
        done: Some(done),
    }
}

// Answers a line that is one.
fn answer_line<L: Ledger>(
    alloc: Global,
    kept: &mut Kept<L>,
    mine: &mut Worked<L>,
    told: &Told,
    line: Line,
) -> Answer
    requires { 0 < mine.old.parts }
    ensures text { IfOk result.text
        (λ text. string_bytes text ≡ line_text line told.now kept.old result.done) }
    ensures done { HandsOn (event_of line)
        result.done kept.old kept.new mine.old.taken mine.new.taken }
    ensures same { LeavesAll (event_of line) kept.old kept.new mine.old.taken mine.new.taken }
    ensures parts { mine.new.parts ≡ mine.old.parts }
{
    match line {
        Line::Domains => text_answer(domains_text(alloc, kept.table())),
        Line::Show(domain) => text_answer(show_text(alloc, kept.table(), domain)),
        Line::Groups(domain) => text_answer(group_lines(alloc, kept.table(), domain)),
        Line::Suspect(domain, site) => {
            let event = Event::Suspect(domain, site);
            serve_event(alloc, kept, mine, event)
        }
        Line::Quota(domain, name, value) => {
            let event = Event::Quota {
                domain,
                name,
                value,
            };
            serve_event(alloc, kept, mine, event)
        }
        Line::Retire(domain) => text_answer(retire_text(alloc, kept.table(), domain)),
        Line::Trace => text_answer(trace_text(alloc, kept)),
        Line::Datagrams => text_answer(datagrams_text(alloc, told.datagrams)),
        Line::Record => text_answer(record_text(alloc, told.record)),
        Line::Keys | Line::Stop => text_answer(String::from_str(alloc, "ok")),
    }
}

/// Answers a line. A line that asks for an event has it served, under the number 0, and what came
/// of it is handed on; any other, and a text that is no line, changes nothing. The text is that of
/// what the table shows, of the trace, of what the daemon tells beside these, or of what came of
/// the event.
pub fn answer<L: Ledger>(
    alloc: Global,
    kept: &mut Kept<L>,
    mine: &mut Worked<L>,
    told: &Told,
    line: &str,
) -> Answer
    requires { 0 < mine.old.parts }
    ensures text { IfOk result.text
        (λ text. string_bytes text ≡ answer_text (line_of line.now) told.now kept.old result.done) }
    ensures done { HandsOn (asked_event (line_of line.now))
        result.done kept.old kept.new mine.old.taken mine.new.taken }
    ensures same { LeavesAll (asked_event (line_of line.now))
        kept.old kept.new mine.old.taken mine.new.taken }
    ensures parts { mine.new.parts ≡ mine.old.parts }
{
    match parse(line) {
        Ok(line) => answer_line(alloc, kept, mine, told, line),
        Err(fault) => text_answer(fault_text(alloc, fault)),
    }
}
