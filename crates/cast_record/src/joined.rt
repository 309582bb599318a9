//! The part of a record that is replayed, joined from the lines of its files.
ghost use Rattle.std.specs.Prelude.{◌≡◌, ◌++◌, ◌∷◌, [], List, OnOk};
ghost use Rattle.cast_record.specs.Parts.{IsOf, Line, behind, is_for_part, is_taken_behind};
ghost use Rattle.cast_record.specs.Parts.{has_place, line_of, lines_of_file, shown_at};

use crate::line::{is_comment, is_domain, is_event, is_for, is_gap, is_head, split_once};
use cast_types::{DomainNo, NoMemory};
use std::alloc::Global;

/// What of a record is replayed.
#[derive(Clone, Copy, Debug, PartialEq, Eq)]
pub struct Part {
    /// The first events, so many of them at most.
    pub until: u64,
    /// Those of one domain, with the ticks; of all domains if none is named.
    pub domain: Option<DomainNo>,
}

impl Part {
    /// All events.
    pub const WHOLE: Part = Part {
        until: u64::MAX,
        domain: None,
    };

    // Whether a line is for one of the domains of the part.
    fn is_for(&self, line: &[u8]) -> bool
        ensures { result ≡ is_for_part self.now line.now }
    {
        match self.domain {
            Some(domain) => is_for(line, domain),
            None => true,
        }
    }

    // Whether a line has its place, where so many events stand before it.
    fn has_place(&self, events: u64, line: &[u8], is_first: bool) -> bool
        ensures { result ≡ has_place self.now events (line_of is_first line.now) }
    {
        if is_head(line) {
            is_first
        } else {
            events < self.until
        }
    }

    // Whether a line is of the part, which is not over, where so many events stand before it.
    fn takes(&self, events: u64, line: &[u8], is_first: bool) -> bool
        ensures { result ≡ is_taken_behind self.now events (line_of is_first line.now) }
    {
        !is_comment(line) && self.has_place(events, line, is_first) && self.is_for(line)
    }
}

/// How far a part is joined.
#[derive(Clone, Copy, Debug, PartialEq, Eq)]
pub struct Progress {
    /// How many events stand before the next line, or before the end of the part.
    pub events: u64,
    /// Nothing more is replayed.
    pub is_over: bool,
    /// The part ends where events are missing.
    pub has_gap: bool,
}

impl Progress {
    // How far a part of so many events is behind one line more.
    fn behind(self, line: &[u8], until: u64) -> Progress
        ensures { result ≡ behind until line.now self }
    {
        if self.is_over {
            return self;
        }
        if is_gap(line) {
            return Progress {
                events: self.events,
                is_over: true,
                has_gap: true,
            };
        }
        if !is_event(line) {
            return self;
        }
        if self.events < until {
            Progress {
                events: self.events + 1,
                is_over: self.is_over,
                has_gap: self.has_gap,
            }
        } else {
            Progress {
                events: self.events,
                is_over: true,
                has_gap: self.has_gap,
            }
        }
    }
}

/// The lines of a record that are replayed.
#[derive(Drop)]
pub struct Joined {
    /// The lines, as a script. An empty line stands for one that is not replayed, so that lines
    /// keep their numbers in the first file.
    pub text: Vec<u8>,
    /// What of the record is replayed.
    pub part: Part,
    /// Whether a domain is configured in the text.
    pub has_domain: bool,
    /// How far it is joined.
    pub progress: Progress,
}

impl Joined {
    /// No lines yet.
    pub fn new(alloc: Global, part: Part) -> Self
        ensures part { result.part ≡ part }
        ensures lines { IsOf result [] }
    {
        Joined {
            text: Vec::new(alloc),
            part,
            has_domain: false,
            progress: Progress {
                events: 0,
                is_over: false,
                has_gap: false,
            },
        }
    }

    // The next line, or an empty one where it is not of the part.
    fn shown<'a>(&self, line: &'a [u8], is_first: bool) -> &'a [u8]
        ensures { result.now
            ≡ shown_at self.now.part self.now.progress (line_of is_first line.now) }
    {
        if !self.progress.is_over && self.part.takes(self.progress.events, line, is_first) {
            line
        } else {
            &[]
        }
    }

    // Adds a line, or an empty one where it is not of the part.
    fn add(&mut self, line: &[u8], is_first: bool) -> Result<(), NoMemory>
        ensures part { self.new.part ≡ self.old.part }
        ensures lines { (lines : List Line) → IsOf self.old lines
            → OnOk result (IsOf self.new (lines ++ line_of is_first line.now ∷ [])) }
    {
        let shown = self.shown(line, is_first);
        self.has_domain |= is_domain(shown);
        self.text.extend_from_slice(shown)?;
        self.text.push(b'\n')?;
        self.progress = self.progress.behind(line, self.part.until);
        Ok(())
    }

    /// Adds the lines of a file. What stands behind the last line feed of a file that is not whole
    /// was cut off as it was written, and is left out.
    pub fn add_file(&mut self, bytes: &[u8], is_first: bool, is_whole: bool) -> Result<(), NoMemory>
        ensures part { self.new.part ≡ self.old.part }
        ensures lines { (lines : List Line) → IsOf self.old lines
            → OnOk result (IsOf self.new (lines ++ lines_of_file is_first is_whole bytes.now)) }
    {
        let mut rest = bytes;
        while let Some((line, behind)) = split_once(rest, b'\n') {
            self.add(line, is_first)?;
            rest = behind;
        }
        if is_whole {
            self.add(rest, is_first)?;
        }
        Ok(())
    }
}
