//! Sessions: a session reads lines from a reader, executes the calls in the lines on a set, and writes the answers to a
//! writer. A session makes all its calls through one seat (a per-thread handle) of the set.
ghost use Rattle.std.specs.Prelude.{◌≡◌, ◌≤◌, ◌↔◌, ◌∷◌, [], Bool, true, false, IsTrue, if◌then◌else◌, length, None};
ghost use Rattle.lset_words.specs.Records.{with_calls};
ghost use Rattle.lset_session.specs.Devices.{Writes};
ghost use Rattle.lset_session.specs.SessionText.{Exchange, turn_of, line, answer_of, call_of, reply_word};
ghost use Rattle.lset_session.specs.Sessions.{IsSession};
ghost use Rattle.lset_session.specs.SessionSoFar.{Hears, IsTalk, Nearer, counted, failed_by};
ghost use Rattle.lset_text.specs.Parts.{ended};

use crate::devices::{Sink, Source, write_all};
use crate::requests::{Request, read_request};
use crate::{LONGEST_LINE, MOST_LINES};
use arrayvec::ArrayString;
use itoa::Buffer;
use lset_words::{Reply, SetCalls};
use std::sync::Wait;

/// The reason why a session ended.
#[derive(Clone, Copy, Debug, PartialEq, Eq)]
pub enum EndReason {
    /// A line was `QUIT`. The answer was `BYE`.
    Quit,
    /// The input ended. Bytes after the last newline were ignored.
    End,
    /// A line has more than 64 bytes. The answer was `LONG`.
    Long,
    /// The session answered 1,000,000 lines, and then wrote `LIMIT`.
    Limit,
    /// A read failed.
    ReadFault,
    /// A write failed. The last answer was not written completely.
    WriteFault,
}

/// The end of a session: the reason, and the number of calls made.
#[derive(Clone, Copy, Debug, PartialEq, Eq)]
pub struct Ended {
    pub why: EndReason,
    pub calls: u64,
}

/// The state of a session: the bytes of the current line, the number of lines that the session can still answer, and
/// the number of calls that it has made.
#[derive(Drop)]
struct Talk {
    line: [u8; LONGEST_LINE],
    len: usize,
    left: u32,
    calls: u64,
}

/// Returns the answer line for a call that returned `reply`. The longest such line is `AT 4294967295`.
fn reply_line(reply: Reply) -> ArrayString<14>
    ensures { result.bytes ≡ ended (reply_word reply) }
{
    let mut line = ArrayString::new();
    match reply {
        Reply::True => line.push_str("TRUE\n"),
        Reply::False => line.push_str("FALSE\n"),
        Reply::Full => line.push_str("FULL\n"),
        Reply::At(key) => {
            line.push_str("AT ");
            line.push_str(Buffer::new().format(key.0));
            line.push_str("\n");
        }
        Reply::Nothing => line.push_str("NONE\n"),
    }
    line
}

/// Answers a request line: executes the line's call and writes the reply, or writes `BYE` or `BAD`. Returns whether the
/// whole answer was written.
fn answer<R: Wait, W: Sink, S: SetCalls>(
    rt: &R,
    writer: &mut W,
    set: &S,
    seat: &mut S::Seat,
    request: Request,
) -> bool
    requires seat { S.is_of set.now seat.old }
    requires works { W.has_failed writer.old ≡ false }
    ensures said { (e : Exchange) × (turn_of e ≡ line request)
        × (S.record_of seat.new ≡ with_calls (S.record_of seat.old) (call_of e))
        × Writes result (W.written writer.old) (W.written writer.new) (answer_of e) }
    ensures failed { W.has_failed writer.new ≡ (if result then false else true) }
    ensures seat { S.is_of set.now seat.new × (S.held_by seat.new ≡ S.held_by seat.old) }
{
    match request {
        Request::Call(made) => {
            let reply = set.make_call(rt, seat, made);
            write_all(writer, reply_line(reply).as_str().as_bytes())
        }
        Request::Quit => write_all(writer, b"BYE\n"),
        Request::Bad => write_all(writer, b"BAD\n"),
    }
}

/// Writes `text`, the last line of a session. Returns the reason why the session ends: `why` if the whole line was
/// written, otherwise `WriteFault`.
fn last_line<W: Sink>(writer: &mut W, text: &[u8], why: EndReason) -> EndReason
    requires works { W.has_failed writer.old ≡ false }
    ensures { (whole : Bool) × (result ≡ (if whole then why else EndReason.WriteFault))
        × Writes whole (W.written writer.old) (W.written writer.new) text.now
        × (W.has_failed writer.new ≡ (if whole then false else true)) }
{
    if write_all(writer, text) {
        why
    } else {
        EndReason::WriteFault
    }
}

fn count_of(request: Request) -> u64
    ensures count { result ≡ counted request }
    ensures one { result ≤ 1 }
{
    match request {
        Request::Call(_) => 1,
        Request::Quit | Request::Bad => 0,
    }
}

/// Answers the current line, which is complete, and empties the line. Returns the reason why the session ends after the
/// answer, or `None` if the session continues.
fn line_in<R: Wait, W: Sink, S: SetCalls>(
    rt: &R,
    writer: &mut W,
    set: &S,
    seat: &mut S::Seat,
    talk: &mut Talk,
) -> Option<EndReason>
    requires seat { S.is_of set.now seat.old }
    requires talk { IsTalk talk.old }
    requires works { W.has_failed writer.old ≡ false }
    ensures heard { Hears (10 ∷ []) result talk.old talk.new (S.record_of seat.old) (S.record_of seat.new) (W.written writer.old) (W.written writer.new) }
    ensures on { result ≡ None → IsTalk talk.new × Nearer talk.old talk.new 1 }
    ensures few { talk.new.calls ≤ MOST_LINES }
    ensures failed { W.has_failed writer.new ≡ failed_by result }
    ensures seat { S.is_of set.now seat.new × (S.held_by seat.new ≡ S.held_by seat.old) }
{
    let request = read_request(&talk.line[..talk.len]);
    talk.len = 0;
    talk.left -= 1;
    talk.calls += count_of(request);
    if !answer(rt, writer, set, seat, request) {
        return Some(EndReason::WriteFault);
    }
    if let Request::Quit = request {
        return Some(EndReason::Quit);
    }
    if talk.left == 0 {
        return Some(last_line(writer, b"LIMIT\n", EndReason::Limit));
    }
    None
}

/// Answers the current line if `byte` is a newline, otherwise appends `byte` to the line. Returns the reason why the
/// session ends with `byte` (`Long` if the line is already full), or `None` if the session continues.
fn byte_in<R: Wait, W: Sink, S: SetCalls>(
    rt: &R,
    writer: &mut W,
    set: &S,
    seat: &mut S::Seat,
    talk: &mut Talk,
    byte: u8,
) -> Option<EndReason>
    requires seat { S.is_of set.now seat.old }
    requires talk { IsTalk talk.old }
    requires works { W.has_failed writer.old ≡ false }
    ensures heard { Hears (byte ∷ []) result talk.old talk.new (S.record_of seat.old) (S.record_of seat.new) (W.written writer.old) (W.written writer.new) }
    ensures on { result ≡ None → IsTalk talk.new × Nearer talk.old talk.new 1 }
    ensures few { talk.new.calls ≤ MOST_LINES }
    ensures failed { W.has_failed writer.new ≡ failed_by result }
    ensures seat { S.is_of set.now seat.new × (S.held_by seat.new ≡ S.held_by seat.old) }
{
    if byte == b'\n' {
        return line_in(rt, writer, set, seat, talk);
    }
    if talk.len == LONGEST_LINE {
        return Some(last_line(writer, b"LONG\n", EndReason::Long));
    }
    talk.line[talk.len] = byte;
    talk.len += 1;
    None
}

/// Processes the bytes of one read. Returns the reason why the session ends within `bytes`, or `None` if the session
/// continues.
fn bytes_in<R: Wait, W: Sink, S: SetCalls>(
    rt: &R,
    writer: &mut W,
    set: &S,
    seat: &mut S::Seat,
    talk: &mut Talk,
    bytes: &[u8],
) -> Option<EndReason>
    requires seat { S.is_of set.now seat.old }
    requires talk { IsTalk talk.old }
    requires works { W.has_failed writer.old ≡ false }
    ensures heard { Hears bytes.now result talk.old talk.new (S.record_of seat.old) (S.record_of seat.new) (W.written writer.old) (W.written writer.new) }
    ensures on { result ≡ None → IsTalk talk.new × Nearer talk.old talk.new (length bytes.now) }
    ensures few { talk.new.calls ≤ MOST_LINES }
    ensures failed { W.has_failed writer.new ≡ failed_by result }
    ensures seat { S.is_of set.now seat.new × (S.held_by seat.new ≡ S.held_by seat.old) }
{
    for byte in bytes {
        if let Some(why) = byte_in(rt, writer, set, seat, talk, *byte) {
            return Some(why);
        }
    }
    None
}

/// Serves one client: reads lines from `reader`, executes the calls in the lines, and writes an answer to each line to
/// `writer`. The calls are made through `seat` (a per-thread handle), which must belong to `set`. `reader` and `writer`
/// must not have failed.
///
/// Each line ends with a newline. A line `ADD k`, `REMOVE k`, `CONTAINS k` or `CEILING k` is answered with `TRUE`,
/// `FALSE`, `FULL`, `AT x` (the key x) or `NONE` (no key). `QUIT` is answered with `BYE`, and any other line with
/// `BAD`. Each answer is written completely before the next call is made.
///
/// The session ends with:
/// - `Quit`: a line was `QUIT`;
/// - `End`: the input ended; bytes after the last newline were dropped;
/// - `Long`: a line has more than 64 bytes; the answer is `LONG`;
/// - `Limit`: 1,000,000 lines were answered, the last was not `QUIT`, and `LIMIT` was written;
/// - `ReadFault`, `WriteFault`: a read or a write failed. The calls made until then are counted.
///
/// Blocks if `set`, `reader` or `writer` blocks. Does not allocate.
pub fn session<R: Wait, I: Source, O: Sink, S: SetCalls>(
    rt: &R,
    reader: &mut I,
    writer: &mut O,
    set: &S,
    seat: &mut S::Seat,
) -> Ended
    requires seat { S.is_of set.now seat.old }
    requires works { (I.has_failed reader.old ≡ false) × (O.has_failed writer.old ≡ false) }
    // [Session]: the session has made exactly the calls, and written exactly the answers, that its input demands.
    ensures session { IsSession result.why result.calls (I.remaining reader.old) (I.remaining reader.new)
        (S.record_of seat.old) (S.record_of seat.new) (O.written writer.old) (O.written writer.new) }
    // The session ends with `ReadFault` if and only if the reader has failed, and with `WriteFault` if and only if the
    // writer has failed.
    ensures read_fault { IsTrue (I.has_failed reader.new) ↔ (result.why ≡ EndReason.ReadFault) }
    ensures write_fault { IsTrue (O.has_failed writer.new) ↔ (result.why ≡ EndReason.WriteFault) }
    ensures few { result.calls ≤ MOST_LINES }
    ensures seat { S.is_of set.now seat.new × (S.held_by seat.new ≡ S.held_by seat.old) }
{
    let mut buffer = [0u8; 4096];
    let mut talk = Talk {
        line: [0; LONGEST_LINE],
        len: 0,
        left: MOST_LINES,
        calls: 0,
    };
    loop {
        let Some(count) = reader.read(&mut buffer) else {
            return Ended {
                why: EndReason::ReadFault,
                calls: talk.calls,
            };
        };
        if count == 0 {
            return Ended {
                why: EndReason::End,
                calls: talk.calls,
            };
        }
        if let Some(why) = bytes_in(rt, writer, set, seat, &mut talk, &buffer[..count]) {
            return Ended {
                why,
                calls: talk.calls,
            };
        }
    }
}
