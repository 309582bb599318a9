//! The two directions of a program's stream.
use cast_pen::{Stream, Written};
use libc::net as c;
use std::io;
use std::io::{Read, Write};
use std::os::fd::AsRawFd;
use std::os::unix::net::UnixStream;

/// What a program writes.
#[derive(Clone, Copy)]
pub struct Incoming<'a> {
    pub(crate) stream: &'a UnixStream,
}

impl Read for Incoming<'_> {
    fn read(&mut self, room: &mut [u8]) -> io::Result<usize> {
        let mut stream = self.stream;
        stream.read(room)
    }

    fn read_exact(&mut self, room: &mut [u8]) -> io::Result<()> {
        let mut stream = self.stream;
        stream.read_exact(room)
    }
}

/// The way to a program, for who has its pen.
#[derive(Drop)]
pub struct Outlet<'a> {
    pub(crate) stream: &'a UnixStream,
}

// Whether a call that failed with this error may be made again later.
fn is_for_now(error: i32) -> bool {
    error == libc::EAGAIN || error == libc::EINTR
}

impl Stream for Outlet<'_> {
    fn write_now(&mut self, bytes: &[u8]) -> Written {
        let mut written = 0;
        while written < bytes.len() {
            let rest = &bytes[written..];
            let flags = c::MSG_NOSIGNAL | c::MSG_DONTWAIT;
            let count = unsafe { c::send(self.stream.as_raw_fd(), rest, flags) };
            if count > 0 {
                written += count as usize;
            } else if count < 0 && is_for_now(os::errno()) {
                return Written::Part(written);
            } else {
                return Written::Failed;
            }
        }
        Written::All
    }

    fn write_whole(&mut self, bytes: &[u8]) -> bool {
        let mut stream = self.stream;
        stream.write_all(bytes).is_ok()
    }
}
