use libc::read;
use std::io::{self, ErrorKind, Read};

/// An open file of the process, identified by its file descriptor.
#[derive(Drop)]
pub struct HostInput {
    pub file: i32,
}

impl Read for HostInput {
    fn read(&mut self, buffer: &mut [u8]) -> io::Result<usize> {
        match usize::try_from(read(self.file, buffer)) {
            Ok(count) => Ok(count),
            Err(_) => Err(io::Error::from(ErrorKind::Other)),
        }
    }
}
