//! Implements the command `stats`, which counts the calls of a recording.

use lset_judge::StreamCall;
use lset_recording::RecordingReader;
use lset_words::{Call, Reply};
use std::alloc::{AllocError, Global};
use std::collections::{BTreeMap, BTreeSet};
use std::io::Read;
use tool_base::{Answer, READ_SIZE, Trouble};

/// Stands for the end of a pending call. Greater than every end in a recording.
const NEVER: u64 = u64::MAX;

/// How many calls of one operation returned true, returned false, or are pending.
#[derive(Clone, Copy)]
struct Replies {
    returned_true: u64,
    returned_false: u64,
    pending: u64,
}

const NO_REPLIES: Replies = Replies {
    returned_true: 0,
    returned_false: 0,
    pending: 0,
};

impl Replies {
    fn note(&mut self, ended: Option<(u64, Reply)>) {
        let count = match ended {
            None => &mut self.pending,
            Some((_, Reply::True)) => &mut self.returned_true,
            Some(_) => &mut self.returned_false,
        };
        *count = count.saturating_add(1);
    }

    fn all(self) -> u64 {
        let ended = self.returned_true.saturating_add(self.returned_false);
        ended.saturating_add(self.pending)
    }
}

/// A summary of the calls so far (of all calls, or of the calls on one key). The summary suffices to count the calls
/// that overlap another call.
#[derive(Clone, Copy)]
struct Span {
    /// The latest end of the summarized calls.
    end: u64,
    /// The end of the call that began last.
    last_end: u64,
    /// Whether the call that began last overlaps an earlier call.
    is_counted: bool,
}

const NO_SPAN: Span = Span {
    end: 0,
    last_end: 0,
    is_counted: true,
};

impl Span {
    /// Adds a call. Returns how many calls are found to overlap another call for the first time: the added call, the
    /// one before it, both or neither. Any earlier call that overlaps the added call also overlaps the call after
    /// itself, and was counted then.
    fn add(&mut self, begun: u64, end: u64) -> u64 {
        let overlaps = self.end > begun;
        let last_overlaps = self.last_end > begun && !self.is_counted;
        *self = Span {
            end: self.end.max(end),
            last_end: end,
            is_counted: overlaps,
        };
        u64::from(overlaps) + u64::from(last_overlaps)
    }
}

/// Counts of the calls read so far. The memory grows with the numbers of different keys, threads and pending calls, not
/// with the number of calls.
#[derive(Drop)]
struct Counts {
    adds: Replies,
    removes: Replies,
    reads: Replies,
    threads: BTreeSet<u32>,
    keys: BTreeMap<u32, Span>,
    whole: Span,
    overlapping: u64,
    overlapping_of_key: u64,
    /// The ends of the calls that are pending just after the most recent call began, including that call. A call that
    /// never ended has the end `NEVER`.
    ends: Vec<u64>,
    most_pending: usize,
}

impl Counts {
    fn new(alloc: Global) -> Counts {
        Counts {
            adds: NO_REPLIES,
            removes: NO_REPLIES,
            reads: NO_REPLIES,
            threads: BTreeSet::new(alloc),
            keys: BTreeMap::new(alloc),
            whole: NO_SPAN,
            overlapping: 0,
            overlapping_of_key: 0,
            ends: Vec::new(alloc),
            most_pending: 0,
        }
    }

    /// Adds a call. Calls must be added in the order in which they began.
    fn add(&mut self, call: StreamCall) -> Result<(), AllocError> {
        let begun = call.begun;
        let end = match call.ended {
            Some((end, _)) => end,
            None => NEVER,
        };
        let replies = match call.call {
            Call::Add(_) => &mut self.adds,
            Call::Remove(_) => &mut self.removes,
            Call::Contains(_) | Call::Ceiling(_) => &mut self.reads,
        };
        replies.note(call.ended);
        self.threads.insert(call.thread)?;
        let key = call.call.key().0;
        let mut span = match self.keys.get(&key) {
            Some(span) => *span,
            None => NO_SPAN,
        };
        let of_key = span.add(begun, end);
        self.keys.insert(key, span)?;
        let of_all = self.whole.add(begun, end);
        self.overlapping = self.overlapping.saturating_add(of_all);
        self.overlapping_of_key = self.overlapping_of_key.saturating_add(of_key);
        self.ends.retain(|end| *end > begun);
        self.ends.push(end)?;
        self.most_pending = self.most_pending.max(self.ends.len());
        Ok(())
    }

    /// Returns the lines that `stats` prints.
    fn text(&self, alloc: Global) -> Result<String, AllocError> {
        let mut out = String::new(alloc);
        let calls = self.adds.all().saturating_add(self.removes.all());
        let calls = calls.saturating_add(self.reads.all());
        writeln!(out, "calls {calls}")?;
        put_replies(&mut out, "add", self.adds)?;
        put_replies(&mut out, "remove", self.removes)?;
        put_replies(&mut out, "contains", self.reads)?;
        let (threads, keys) = (self.threads.len(), self.keys.len());
        writeln!(out, "threads {threads}")?;
        writeln!(out, "keys {keys}")?;
        let (any, of_key) = (self.overlapping, self.overlapping_of_key);
        writeln!(out, "overlap another call {any}")?;
        writeln!(out, "overlap another call of the key {of_key}")?;
        let most = self.most_pending;
        writeln!(out, "most pending at once {most}")?;
        Ok(out)
    }
}

/// Writes the three lines with the counts of one operation.
fn put_replies(out: &mut String, word: &str, replies: Replies) -> Result<(), AllocError> {
    let Replies {
        returned_true,
        returned_false,
        pending,
    } = replies;
    writeln!(out, "{word} true {returned_true}")?;
    writeln!(out, "{word} false {returned_false}")?;
    writeln!(out, "{word} pending {pending}")?;
    Ok(())
}

/// Counts the calls of a recording: by operation and reply, the pending calls, the threads and keys, and the calls that
/// overlap another call. Also finds the maximum number of calls that are pending at the same time. Allocates. Blocks
/// while reading the input.
///
/// # Errors
///
/// Returns the errors of `judge_input`.
pub fn stats_input<R: Read>(alloc: Global, input: &mut R) -> Result<Answer, Trouble> {
    let mut reader = RecordingReader::new(alloc);
    let mut counts = Counts::new(alloc);
    let mut buffer = [0u8; READ_SIZE];
    for _ in 0..u64::MAX {
        for call in reader.take_calls().as_slice() {
            counts.add(*call)?;
        }
        let Ok(count) = input.read(&mut buffer) else {
            return Err(Trouble::CannotRead);
        };
        if count == 0 {
            let _judged = reader.finish()?;
            let text = counts.text(alloc)?.into_bytes();
            return Ok(Answer { text, status: 0 });
        }
        reader.feed(&buffer[..count])?;
    }
    Err(Trouble::CannotRead)
}
