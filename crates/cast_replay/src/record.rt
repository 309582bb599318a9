//! A record: the files in which a daemon wrote what it did, read as one script, whole or in part.
use crate::meter::Meter;
use crate::run::{replay_file, replay_read, say_gap};
use cast_device::{Watched, tell};
use cast_record::{Joined, Part};
use cast_types::NoMemory;
use std::alloc::Global;
use std::io::Write;
use std::rt::{Clock, Files};
use std::{fs, io};

// The name of a file of a record in a folder.
fn name_of(alloc: Global, site: &str, number: usize) -> Result<String, NoMemory> {
    format!(in alloc; "{site}-{number:06}.script")
}

// The site of the name of the first file of a record, with what stands before it.
fn site_of(name: &str) -> Option<&str> {
    if name.starts_with("castd-") {
        name.strip_suffix("-000001.script")
    } else {
        None
    }
}

// What the names of the files of the one record in a folder begin with. Fails where there is none,
// or more than one.
fn site_in<R: Files + AllocGlobal + Clone + Drop>(rt: &R, folder: &str) -> io::Result<String> {
    let mut found: Option<String> = None;
    for entry in fs::read_dir(rt, folder)? {
        let entry = entry?;
        if let Some(site) = site_of(entry.file_name()) {
            if found.is_some() {
                return Err(io::Error::from(io::ErrorKind::InvalidData));
            }
            found = Some(String::from_str(rt.alloc(), site)?);
        }
    }
    match found {
        Some(site) => Ok(site),
        None => Err(io::Error::from(io::ErrorKind::NotFound)),
    }
}

// Reads the files of the record in a folder, one after another, up to the first number that has
// none.
fn join_folder<R: Files + Clock + AllocGlobal + Clone + Drop, T: Write>(
    rt: &R,
    folder: &str,
    part: Part,
    meter: &mut Meter<'_, R, T>,
) -> io::Result<Joined> {
    let alloc = rt.alloc();
    let site = site_in(rt, folder)?;
    let mut joined = Joined::new(alloc, part);
    for number in 1..1_000_000usize {
        let name = name_of(alloc, site.as_str(), number)?;
        let path = format!(in alloc; "{folder}/{name}")?;
        if !fs::exists(rt, path.as_str())? {
            break;
        }
        let bytes = fs::read(rt, path.as_str())?;
        meter.read(bytes.len());
        joined.add_file(bytes.as_slice(), number == 1, false)?;
        if joined.progress.is_over {
            break;
        }
    }
    Ok(joined)
}

// Whether there is a folder of this name.
fn is_folder<R: Files>(rt: &R, name: &str) -> bool {
    match fs::metadata(rt, name) {
        Ok(metadata) => metadata.is_dir(),
        Err(_) => false,
    }
}

// Reads the file of this name, or the files of the record in the folder of this name.
fn join<R: Files + Clock + AllocGlobal + Clone + Drop, T: Write>(
    rt: &R,
    name: &str,
    part: Part,
    meter: &mut Meter<'_, R, T>,
) -> io::Result<Joined> {
    if is_folder(rt, name) {
        return join_folder(rt, name, part, meter);
    }
    let bytes = fs::read(rt, name)?;
    meter.read(bytes.len());
    let mut joined = Joined::new(rt.alloc(), part);
    joined.add_file(bytes.as_slice(), true, true)?;
    Ok(joined)
}

// The status where a folder has several records, as where a file cannot be read.
const UNREADABLE: u8 = 3;

// The status where a script does not have the domain, as for a faulty line.
const FAULTY: u8 = 4;

/// Replays a part of the script in the file of this name, or of the record in the folder of this
/// name, as `replay_read` does, and answers the status of the program: also 3 where the folder has
/// more than one record, and 4 where the domain is not there. A record is replayed up to the first
/// place where events are missing, which is said. The meter shows how far this is.
pub fn replay_part<R: Files + Clock + AllocGlobal + Clone + Drop, O: Write, E: Write, T: Write>(
    rt: &R,
    name: &str,
    part: Part,
    meter: &mut Meter<'_, R, T>,
    out: &mut Watched<O>,
    err: &mut Watched<E>,
) -> u8 {
    if part == Part::WHOLE && !is_folder(rt, name) {
        return replay_file(rt, name, meter, out, err);
    }
    match join(rt, name, part, meter) {
        Ok(joined) if part.domain.is_some() && !joined.has_domain => {
            tell(err, &["castd: no such domain in ", name, "\n"]);
            FAULTY
        }
        Ok(joined) => {
            let status = replay_read(rt.alloc(), name, Ok(joined.text), meter, out, err);
            if joined.progress.has_gap {
                say_gap(joined.progress.events, err);
            }
            status
        }
        Err(error) if error.kind() == io::ErrorKind::InvalidData => {
            tell(err, &["castd: more than one record in ", name, "\n"]);
            UNREADABLE
        }
        Err(error) => replay_read(rt.alloc(), name, Err(error), meter, out, err),
    }
}
