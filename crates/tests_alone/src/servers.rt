//! Tests of servers that cannot write their output. The first line of the output contains the port, which differs
//! between runs: the tests ignore its digits.
use crate::failing_devices::{CANNOT_WRITE, Failure, Plan, Way, Writer, planned};
use crate::prelude::*;
use lset_dispatch::run_words;
use std::io::{self, Read, Write};
use std::net::Shutdown;

const LISTENING: &str = "listening 127.0.0.1:";

/// The output of a server after its first line, if the server served one client.
const ONE_SESSION: &str = "sessions 1\ncalls 1\nkey 7\n";

/// An upper limit for the number of writes and flushes of a server on its output.
const MOST_CALLS: usize = 100;

/// The failures to try, each with the maximum number of bytes that one write accepts.
const WAYS: [Way; 3] = [
    (Failure::Interrupted, 1),
    (Failure::BrokenPipe, 3),
    (Failure::Nothing, 7),
];

/// Connects a client and sends a call and `QUIT`. The client needs no thread of its own, because it sends both lines
/// before the server accepts the connection.
fn client<R: Host>(rt: &R, port: u16) -> io::Result<TcpStream> {
    let mut stream = TcpStream::connect(rt, ("127.0.0.1", port))?;
    stream.write_all(b"ADD 7\nQUIT\n")?;
    stream.shutdown(Shutdown::Write)?;
    Ok(stream)
}

/// Returns the port in the first line of `text`, if the first line is complete.
fn port_in(text: &[u8]) -> Option<u16> {
    let text = std::str::from_utf8(text).ok()?;
    text.strip_prefix(LISTENING)?
        .strip_suffix("\n")?
        .parse()
        .ok()
}

/// The output of a server. When the server flushes the line with its port, a client connects to that port.
#[derive(Drop)]
struct Door<'r, R> {
    rt: &'r R,
    writer: Writer,
    client: Option<TcpStream>,
    /// Whether a flush has succeeded so far.
    is_open: bool,
}

impl<R: Host> Write for Door<'_, R> {
    fn write(&mut self, buf: &[u8]) -> io::Result<usize> {
        self.writer.write(buf)
    }

    fn flush(&mut self) -> io::Result<()> {
        if let Some(port) = port_in(&self.writer.taken) {
            self.client = Some(client(self.rt, port)?);
        }
        self.writer.flush()?;
        self.is_open = true;
        Ok(())
    }
}

/// Returns `true` if the client received the answers to its call and to `QUIT`, and then the end of the connection.
fn is_answered(client: Option<TcpStream>) -> bool {
    let Some(mut stream) = client else {
        return false;
    };
    let mut answers = [0u8; 9];
    stream.read_exact(&mut answers).is_ok()
        && answers.as_slice() == b"TRUE\nBYE\n".as_slice()
        && matches!(stream.read(&mut [0u8; 1]), Ok(0))
}

/// Returns `true` if no client connected, or if the client received no byte.
fn is_turned_away(client: Option<TcpStream>) -> bool {
    let Some(mut stream) = client else {
        return true;
    };
    matches!(stream.read(&mut [0u8; 9]), Ok(0) | Err(_))
}

/// Skips the digits at the start of a text. Returns the rest and the number of digits.
fn after_digits(text: &str) -> (&str, usize) {
    let rest = text.trim_start_matches(|letter: char| letter.is_ascii_digit());
    (rest, text.len().saturating_sub(rest.len()))
}

/// Returns `Some(true)` if the bytes are a prefix of the whole output: the first line, then `after`. Returns `None` if
/// the bytes are not UTF-8.
fn is_front(bytes: &[u8], after: &str) -> Option<bool> {
    let text = std::str::from_utf8(bytes).ok()?;
    let Some(named) = text.strip_prefix(LISTENING) else {
        return Some(LISTENING.starts_with(text));
    };
    let (rest, digits) = after_digits(named);
    match rest.strip_prefix("\n") {
        Some(rest) => Some(digits > 0 && after.starts_with(rest)),
        None => Some(rest.is_empty()),
    }
}

/// Returns `Some(true)` if the bytes are the whole output: the first line, then `after`. Returns `None` if the bytes
/// are not UTF-8.
fn is_whole(bytes: &[u8], after: &str) -> Option<bool> {
    let ends = bytes.ends_with(after.as_bytes());
    Some(ends && is_front(bytes, after)?)
}

/// Runs a server for one session. `plan` determines which write or flush of the output fails. Returns `true` if a write
/// or flush failed.
fn output_fails<R: Host>(rt: &R, alloc: Global, plan: Plan) -> Result<bool, Fail> {
    let words = ["serve", "lazy", "1", "4", "0", "1"];
    let mut door = Door {
        rt,
        writer: Writer::new(alloc, plan),
        client: None,
        is_open: false,
    };
    let mut stderr = Vec::new(alloc);
    let status = run_words(
        rt,
        alloc,
        &words,
        &mut "".as_bytes(),
        &mut door,
        &mut stderr,
    );
    let Door {
        writer,
        client,
        is_open,
        ..
    } = door;
    if status == 0 {
        assert!(rt; is_whole(&writer.taken, ONE_SESSION) == Some(true));
        assert!(rt; stderr.is_empty() && writer.calls <= plan.fails_at);
        assert!(rt; is_answered(client));
        return Ok(false);
    }
    assert!(rt; status == 1 && stderr.as_slice() == CANNOT_WRITE);
    assert!(rt; is_front(&writer.taken, ONE_SESSION) == Some(true));
    assert!(rt; writer.calls == plan.fails_at.saturating_add(1));
    if is_open {
        assert!(rt; is_answered(client));
    } else {
        assert!(rt; is_turned_away(client));
    }
    Ok(true)
}

/// Runs a server several times: in run n (from 0), the n-th write or flush of its output fails. Stops at the first run
/// without a failure, and returns the number of runs before it.
fn each_call_fails<R: Host>(rt: &R, alloc: Global, way: Way) -> Result<usize, Fail> {
    for fails_at in 0..MOST_CALLS {
        if !output_fails(rt, alloc, planned(way, fails_at))? {
            return Ok(fails_at);
        }
    }
    Err(Fail::new("no run ends without a failure"))
}

/// The server must not accept a client before the first line has been written and flushed completely.
#[test]
fn a_server_accepts_no_client_before_its_first_line_is_written(
    rt: HostRuntime,
) -> Result<(), Fail> {
    for way in &WAYS {
        let runs = each_call_fails(&rt, rt.alloc(), *way)?;
        assert!(rt; runs.saturating_mul(way.1) > LISTENING.len());
    }
    Ok(())
}
