ghost use Rattle.std.specs.Prelude.{◌≡◌, IfOk};
ghost use Rattle.std.specs.String.{string_bytes};
ghost use Rattle.cast_print.specs.Scripts.{script_text};

use crate::event::add_event;
use crate::head::add_head;
use cast_events::{Config, Event};
use cast_types::NoMemory;
use std::alloc::Global;

/// The text of a script: the lines of the configuration, and then a line for each event.
pub fn print_script(alloc: Global, config: &Config, events: &[Event]) -> Result<String, NoMemory>
    ensures { IfOk result (λ text. string_bytes text ≡ script_text config.now events.now) }
{
    let mut text = String::new(alloc);
    let mut line = String::new(alloc);
    add_head(alloc, &mut text, config)?;
    for event in events {
        add_event(alloc, &mut text, &mut line, event)?;
    }
    Ok(text)
}
