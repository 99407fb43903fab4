//! Clients for tests of servers. The clients connect over the loopback interface.

use crate::meeting::reaches;
use crate::prelude::*;

/// Sends a text. Returns `true` if the server replies with exactly the answers `answers`.
fn is_answered(stream: &mut TcpStream, text: &[u8], answers: &[u8]) -> bool {
    let mut got = [0u8; 64];
    if answers.len() > 64 || stream.write_all(text).is_err() {
        return false;
    }
    stream.read_exact(&mut got[..answers.len()]).is_ok() && &got[..answers.len()] == answers
}

/// Connects and sends a text. Returns `true` if the server replies with the expected answers and then closes the
/// connection.
pub fn asks<R: Host + Net<Listener = TcpListener, Stream = TcpStream>>(
    rt: &R,
    port: u16,
    text: &[u8],
    answers: &[u8],
) -> bool {
    let Ok(mut stream) = TcpStream::connect(rt, ("127.0.0.1", port)) else {
        return false;
    };
    is_answered(&mut stream, text, answers) && matches!(stream.read(&mut [0u8; 1]), Ok(0))
}

/// Connects, sends a line, and waits until two clients, this one included, have received their answers (`met` counts
/// them). Then sends `QUIT`. Returns `true` if all answers arrived.
pub fn meets<R: Host + Net<Listener = TcpListener, Stream = TcpStream>>(
    rt: &R,
    port: u16,
    line: &[u8],
    met: &AtomicU64,
) -> bool {
    let Ok(mut stream) = TcpStream::connect(rt, ("127.0.0.1", port)) else {
        return false;
    };
    let has_asked = is_answered(&mut stream, line, b"TRUE\n");
    met.fetch_add(u64::from(has_asked), Ordering::SeqCst);
    has_asked && reaches(rt, met, 2) && is_answered(&mut stream, b"QUIT\n", b"BYE\n")
}

/// Connects several clients. No client disconnects before all clients have received their answers. Returns `true` if
/// all answers arrived.
pub fn all_meet<R: Host + Net<Listener = TcpListener, Stream = TcpStream>>(
    rt: &R,
    alloc: Global,
    port: u16,
    clients: u32,
) -> bool {
    let mut streams = Vec::new(alloc);
    for _ in 0..clients {
        let Ok(mut stream) = TcpStream::connect(rt, ("127.0.0.1", port)) else {
            return false;
        };
        if !is_answered(&mut stream, b"CONTAINS 5\n", b"FALSE\n") {
            return false;
        }
        streams.push(stream).expect(rt, "room");
    }
    for mut stream in streams {
        if !is_answered(&mut stream, b"QUIT\n", b"BYE\n") {
            return false;
        }
    }
    true
}

/// Connects, sends a text and disconnects. Returns `true` if the text was sent.
pub fn leaves<R: Host + Net<Listener = TcpListener, Stream = TcpStream>>(
    rt: &R,
    port: u16,
    text: &[u8],
) -> bool {
    let stream = TcpStream::connect(rt, ("127.0.0.1", port));
    stream.is_ok_and(|mut stream| stream.write_all(text).is_ok())
}
