//! Closes a connection without losing answers. If a server closes a connection before it has read all bytes that the
//! client sent, the system resets the connection, and the client loses the answers that have not reached it yet.
//! Therefore, if a session ends before the client has stopped sending, the server first closes only the sending side of
//! the connection, and continues to read for a while.
ghost use Rattle.std.specs.Prelude.{◌≡◌, false};

use lset_session::{Device, EndReason, Source};
use std::io;
use std::io::Read;
use std::net::{Shutdown, TcpStream};
use std::time::{Clock, Duration, Instant};

/// The maximum number of bytes that are read and ignored after the last answer.
const MOST_DROPPED: usize = 1_048_576;

/// The maximum time, in seconds, during which bytes are read and ignored after the last answer.
const MOST_SECONDS: u64 = 1;

/// A connection with a time limit: reads fail if `MOST_SECONDS` have passed since `start`.
#[derive(Drop)]
struct Closing<'a, R> {
    rt: &'a R,
    stream: &'a TcpStream,
    start: Instant,
}

impl<R: Clock> Read for Closing<'_, R> {
    fn read(&mut self, buffer: &mut [u8]) -> io::Result<usize> {
        let spent = self.start.elapsed(self.rt)?;
        let left = Duration::from_secs(MOST_SECONDS).saturating_sub(spent);
        // `set_read_timeout` returns an error if no time is left, because a timeout of 0 is not allowed.
        self.stream.set_read_timeout(Some(left))?;
        let mut stream = self.stream;
        stream.read(buffer)
    }
}

/// Reads and ignores bytes until the input ends, a read fails, or `MOST_DROPPED` bytes have been read.
fn drop_rest<I: Source>(reader: &mut I)
    requires { I.has_failed reader.old ≡ false }
{
    let mut buffer = [0u8; 4096];
    let mut left = MOST_DROPPED;
    while left > 0 {
        let most = left.min(buffer.len());
        let Some(count) = reader.read(&mut buffer[..most]) else {
            return;
        };
        if count == 0 {
            return;
        }
        left -= count;
    }
}

/// Prepares a connection for closing after its session has ended for the reason `why`. If the client can still be
/// sending (reason `Quit`, `Long` or `Limit`), closes the sending side and then reads the client's remaining bytes, for
/// at most one second and at most 1,048,576 bytes. Meanwhile the system can deliver the answers. Does nothing for any
/// other reason, and does not read if the system refuses to close the sending side.
pub(crate) fn take_leave<R: Clock>(rt: &R, stream: &TcpStream, why: EndReason) {
    match why {
        EndReason::Quit | EndReason::Long | EndReason::Limit => {}
        EndReason::End | EndReason::ReadFault | EndReason::WriteFault => return,
    }
    let Ok(start) = Instant::now(rt) else { return };
    if stream.shutdown(Shutdown::Write).is_err() {
        return;
    }
    drop_rest(&mut Device::new(Closing { rt, stream, start }));
}
