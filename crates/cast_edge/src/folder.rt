//! The folder that a record is written in.
use std::alloc::{AllocError, Global};
use std::fs::File;
use std::io;
use std::io::Write;
use std::os::unix::fs::OpenOptionsExt;
use std::rt::Files;

// No file has more bytes, unless what is written at once does.
const MOST_BYTES: u64 = 67_108_864;

// The mode of a file: only its user reads the payloads of all tenants.
const MODE: u32 = 0o600;

/// Writes files `castd-SITE-NNNNNN.script` of at most 64 MiB in a folder, numbered from 1. What is
/// written at once stands in one file. What is written first stands at the head of each file. Only
/// the user can read or write them. A write fails if a file that it would begin is there already.
#[derive(Drop)]
pub struct Folder<'a, R> {
    files: &'a R,
    // The names of the files begin so.
    name: String,
    head: Vec<u8>,
    // How many files there are, and how many bytes the last one has.
    count: u32,
    size: u64,
}

impl<'a, R: Files> Folder<'a, R> {
    /// A folder in which nothing was written yet.
    ///
    /// # Errors
    /// `AllocError` where memory ran out.
    pub fn new(files: &'a R, alloc: Global, folder: &str, site: u16) -> Result<Self, AllocError> {
        Ok(Folder {
            files,
            name: format!(in alloc; "{folder}/castd-{site}")?,
            head: Vec::new(alloc),
            count: 0,
            size: 0,
        })
    }

    // The path of the last file.
    fn path(&self) -> Result<String, AllocError> {
        let name = self.name.as_str();
        let number = self.count;
        format!(in *self.name.allocator(); "{name}-{number:06}.script")
    }

    // Begins one more file.
    fn begin(&mut self) -> io::Result<()> {
        self.count = self.count.saturating_add(1);
        let mut file = File::options()
            .write(true)
            .create_new(true)
            .mode(MODE)
            .open(self.files, self.path()?.as_str())?;
        file.write_all(self.head.as_slice())?;
        self.size = self.head.len() as u64;
        Ok(())
    }

    // Adds bytes to the last file, or begins one more if it has no room.
    fn add(&mut self, bytes: &[u8]) -> io::Result<()> {
        let len = bytes.len() as u64;
        if self.size.saturating_add(len) > MOST_BYTES {
            self.begin()?;
        }
        let mut file = File::options()
            .append(true)
            .open(self.files, self.path()?.as_str())?;
        file.write_all(bytes)?;
        self.size = self.size.saturating_add(len);
        Ok(())
    }
}

impl<R: Files> Write for Folder<'_, R> {
    fn write(&mut self, bytes: &[u8]) -> io::Result<usize> {
        if self.count == 0 {
            self.head.extend_from_slice(bytes)?;
            self.begin()?;
        } else {
            self.add(bytes)?;
        }
        Ok(bytes.len())
    }

    fn flush(&mut self) -> io::Result<()> {
        Ok(())
    }
}
