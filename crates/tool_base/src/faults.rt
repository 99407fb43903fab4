//! The command `faults`: the text with all error messages and their causes, and the search for a name in that text.

use crate::answer::Answer;
use crate::trouble::{Trouble, ValueName};
use lset_text::cut;
use std::alloc::{AllocError, Global};

/// The output of the command `faults`: every error message of the program, and a sentence about each cause. The heading
/// ends at the first empty line.
pub const FAULTS: &str = "\
Error messages of listset. 'listset faults Idle' explains the cause Idle alone. 'listset explain FILE' explains the first error of a
file. docs/TEXTS.md has examples.

listset: line L: CAUSE, in a schedule; exit status 1
  Header    Line 1 must be 'listset-schedule 1' or 'listset-schedule 2'. To turn a draft into a schedule, use the command draft.
  Kind      Line 2 must be 'list' and one of coarse, fine, optimistic, lazy, lock-free; on a broken list, the kind of that list.
  Threads   Line 3 must be 'threads' and a number from 1 to 64.
  Quota     Line 4 must be 'quota' and a number from 0 to 16384.
  Event     Expected 'begin T CALL K' or 'go T N'. In version 2 'opening K' lines, one key each, may come before the first event.
  Number    Expected a number in range, without sign or leading zero: 5, not +5 or 05.
  TooMany   Up to this line there are more than 1000000 events, or more than 1048576 opening keys.
  Opening   Opening keys must increase; this one is not above the one before.
  NotEnded  The line does not end with a newline.
  NoThread  There is no such thread. Threads are numbered from 0 to the number of threads less 1.
  Busy      The thread already has a pending call.
  Idle      The thread has no pending call.
  Lost      The broken list's step would access a word outside its table.

listset: line L: CAUSE, in a draft; exit status 1
  Header    Line 1 must be 'listset-draft 2'.
  Waits     The thread does not reach its row, or the end of its call, within 10000 steps or 1000000 events in all. It may be waiting for a lock.
  (others)  As in a schedule, except for Lost.

listset: line L: CAUSE, in a report; exit status 1
  Header    Line 1 must be 'listset-report 1' or 'listset-report 2'. To make a report of a schedule, use the command replay.
  Kind      As in a schedule.
  Threads   As in a schedule.
  Quota     As in a schedule.
  Line      Expected 'opening K', 'call ID T CALL K BEGIN END REPLY', 'place ID REPLY' and 'key K', in this order, then 'end'. For example
            'call 0 1 add 5 3 9 true', or while the call is pending 'call 0 1 add 5 3 open'.
  Number    As in a schedule.
  TooMany   There are more than 1048576 'opening', 1000000 'call', 1000000 'place' or 1048576 'key' lines (2097152 in version 2).
  Opening   Opening keys must increase; this one is not above the one before.
  History   The call does not have the next number, or conflicts with a call above it.
  NotEnded  The input ends before the line 'end', or the line does not end with a newline.

listset: line L: CAUSE, in recorded calls; exit status 1
  Header    Line 1 must be 'listset-calls 1'. The commands judge, stats and explain read recorded calls.
  Line      Expected 'opening K', 'call T CALL K BEGIN END REPLY' and 'key K', in this order, then 'end'; or 'cut' for 'key' lines and 'end'.
            For example 'call 1 add 5 3 9 true', or while the call is pending 'call 1 add 5 3 - -'. CALL is add, remove or contains, a
            reply is true or false, and a line has at most 128 bytes. A ceiling, and an add that returned full, are not judged. To
            judge the other calls, remove these lines:
              grep -v -e ceiling -e full FILE | listset judge -
  Number    Moments are numbers from 1 to 9223372036854775807; all else as in a schedule.
  Opening   Opening keys must increase, and so must keys; this one is not above the one before.
  History   The call does not end after it begins; or a line above has one of its moments, or a call of the same thread that is pending
            when it begins; or it begins before a call above. The calls must be in the order of their begins. To sort them:
              (grep -E '^(listset|opening)' FILE; grep '^call' FILE | sort -n -k 5,5; grep -E '^(key|end|cut)' FILE) | listset judge -
  NotEnded  The input ends before the line 'end' or 'cut', or the line does not end with a newline.

listset: line L: CAUSE, in the keys with which serve opens; exit status 1
  Line      Expected 'key K'.
  Number    Expected a number from 0 to 4294967295.
  TooMany   There are more than 1048576 keys.
  Opening   Keys must increase; this one is not above the one before.
  NotEnded  The line does not end with a newline.

listset: line 1: Header, from a command that does not read this kind of file; exit status 1
  listset-schedule 1 or 2  A schedule: replay, show and trace read it.
  listset-draft 2          A draft: draft turns it into a schedule.
  listset-report 1 or 2    A report: check and show read it.
  listset-calls 1          Recorded calls: judge, stats and explain read them.
  listset-trace 1          A trace: no command reads it.
  listset-course 1         A course: paste it into page/index.html, under Solve.
  key K                    Keys: serve opens with them.
  (no line)                The input is empty: the file has no bytes, or the command before a pipe failed.
  (one of these)           The line ends with CR LF, has a space at its end, or has a byte order mark before it. A line ends with LF.

not linearizable, from judge; exit status 1
  no order explains the calls of key K up to moment M
            No order gives the calls of key K that began by moment M their replies.
  no order explains the calls of key K and leaves it as it was left
            Every order leaves the key in the set and there is no line 'key K', or the reverse.
  contradiction: A, leaves key K absent, B, needs key K present, and no add K that returned true or is pending overlaps I to J
            After A the key is absent, B needs key K present, and no call in between can add it. (Or with present and absent exchanged.)
  contradiction: key K is absent at first, .. or .. key K is present at the end, ..
            The opening state takes the place of A, or the final state that of B.
  contradiction in both orders: A, needs .. and leaves .., B, needs .. and leaves .., and no add K ..
            A and B overlap. They contradict each other whichever comes first.
  contradiction: A, B, .. need key K to become absent N times between I and J, and only M remove K .. overlap I to J
            The calls need key K to become absent N times, but fewer calls can remove it. (Or with present and absent exchanged.)

refused FAULT ID, of the order in a report, from check; exit status 1
  Unknown     No call has this number.
  Twice       The call is in the order twice.
  Missing     The call is completed but is not in the order.
  WrongReply  The history has another reply, or a sequential set gives another reply at this place.
  TooEarly    The call comes before one that had ended when it began.
  WrongSet    The keys are not those that the order leaves, in increasing order.

listset: work: CAUSE, from run; exit status 1
  Spawn    The system refused to start a thread.
  Opening  A round would open with more than 1048576 keys.

listset: serve: CAUSE; exit status 1
  Accept  The system did not accept a connection.
  Spawn   The system refused to start a thread.
  Send    A connection was accepted, and no worker took it.
  Left    The workers took fewer connections than were accepted.

Other messages
  listset: cannot read    A file could not be opened, or a read failed; exit status 1.
  listset: too long       The input has more than 67108864 bytes; exit status 1.
  listset: cannot write   A write failed; exit status 1.
  listset: cannot listen  The system refused the port; exit status 1.
  listset: bad NAME       The argument or option NAME is missing or out of range, or FROM is past the last moment; exit status 2.
  listset: bad NAME: ..   --lacks takes one of the names that 'listset help replay' lists; example --broken the name of an example with a
                          broken report; exit status 2.
  listset: bad KEY        The key of judge --only is no number from 0 to 4294967295, or the recording has no call of it; exit status 2.
  listset: bad CAUSE      No message has this cause; exit status 2.
  listset: an argument is not UTF-8  A file with such a name is read from the standard input: listset judge < FILE; exit status 2.
  listset: out of memory  An allocation failed; exit status 3.
";

/// Returns all of `FAULTS`, as the answer of the command `faults`. Returns `Trouble::Memory` if an allocation fails.
pub fn list_faults(alloc: Global) -> Result<Answer, Trouble> {
    let text = Vec::from_slice(alloc, FAULTS.as_bytes())?;
    Ok(Answer { text, status: 0 })
}

/// A name to look up in `FAULTS`: the name of a cause, of a message, or of a section.
#[derive(Clone, Copy)]
pub struct FaultName {
    name: &'static [u8],
}

/// The kinds of lines in `FAULTS` after the heading.
#[derive(Clone, Copy, PartialEq, Eq)]
enum FaultLine {
    /// The title of a section, or the empty line before the title.
    Title,
    /// The first line about a cause or a message: two spaces, the cause or message, and an explanation.
    Entry,
    /// A line that continues the text about a cause or a message.
    More,
}

impl FaultLine {
    fn of(line: &[u8]) -> FaultLine {
        match line {
            [b' ', b' ', b' ', ..] => FaultLine::More,
            [b' ', ..] => FaultLine::Entry,
            _ => FaultLine::Title,
        }
    }
}

/// Removes the prefix of a line of `FAULTS`, such as `listset: line L: `. What remains begins with the name that the
/// line explains.
fn from_name(line: &[u8]) -> &[u8] {
    let line = line.strip_prefix(b"  ").unwrap_or(line);
    let line = line.strip_prefix(b"listset: ").unwrap_or(line);
    let line = line.strip_prefix(b"line L: ").unwrap_or(line);
    line.strip_prefix(b"line 1: ").unwrap_or(line)
}

/// Returns `name` as spelled in a line of `FAULTS`, if the line (without a prefix such as `listset: `) begins with
/// `name`, ignoring case. Returns `None` if the line begins with other words, or if `name` is empty or ends within a
/// word.
fn name_of_line<'a>(line: &'a [u8], name: &[u8]) -> Option<&'a [u8]> {
    let line = from_name(line);
    let (first, rest) = (line.get(..name.len())?, line.get(name.len()..)?);
    let is_whole = matches!(rest.first(), None | Some(b' ' | b',' | b':'));
    if is_whole && !name.is_empty() && first.eq_ignore_ascii_case(name) {
        Some(first)
    } else {
        None
    }
}

/// Extracts the name to look up from the argument of the command `faults`, such as `Idle` from the error line `listset:
/// line 4: Idle`. Returns an argument that is not an error line unchanged.
fn name_in(word: &[u8]) -> &[u8] {
    let word = word.strip_prefix(b"listset: ").unwrap_or(word);
    if word.starts_with(b"bad ") {
        return b"bad NAME";
    }
    if let Some(fault) = word.strip_prefix(b"refused ") {
        return match cut(fault, b' ') {
            Some((name, _)) => name,
            None => fault,
        };
    }
    match cut(word, b':') {
        Some((_, [b' ', cause @ ..])) => cause,
        _ => word,
    }
}

/// Reads the argument of `faults`: the name of a cause, message or section (ignoring case), or a whole error line.
/// Returns `ValueName::Cause` if no section title and no entry of `FAULTS` starts with the name.
pub fn read_fault_name(word: &[u8]) -> Result<FaultName, ValueName> {
    let word = name_in(word);
    for line in FAULTS.lines().skip_while(|line| !line.is_empty()) {
        let line = line.as_bytes();
        if FaultLine::of(line) == FaultLine::More {
            continue;
        }
        if let Some(name) = name_of_line(line, word) {
            return Ok(FaultName { name });
        }
    }
    Err(ValueName::Cause)
}

/// Appends `line`, a line of `FAULTS`. If `title` (the title of the line's section) is not empty, appends the title
/// before the line.
fn put_line(out: &mut Vec<u8>, title: &[u8], line: &[u8]) -> Result<(), AllocError> {
    if !title.is_empty() {
        if !out.is_empty() {
            out.extend_from_slice(b"\n")?;
        }
        out.extend_from_slice(title)?;
        out.extend_from_slice(b"\n")?;
    }
    out.extend_from_slice(line)?;
    out.extend_from_slice(b"\n")?;
    Ok(())
}

/// Appends the lines of `FAULTS` about `name`. If `name` is the title of a section, appends the whole section. From any
/// other section, appends the title and the entries that begin with `name`, or nothing if there is no such entry.
fn put_named(out: &mut Vec<u8>, name: &[u8]) -> Result<(), AllocError> {
    let (mut title, mut is_whole, mut is_told) = (b"".as_slice(), false, false);
    for line in FAULTS.lines().skip_while(|line| !line.is_empty()) {
        let line = line.as_bytes();
        match FaultLine::of(line) {
            FaultLine::Title => {
                title = line;
                is_whole = name_of_line(line, name).is_some();
                is_told = false;
                continue;
            }
            FaultLine::Entry => is_told = is_whole || name_of_line(line, name).is_some(),
            FaultLine::More => {}
        }
        if is_told {
            put_line(out, title, line)?;
            title = b"";
        }
    }
    Ok(())
}

/// Returns the answer of the command `faults NAME`: the lines of `FAULTS` about the name in `fault`. Returns
/// `Trouble::Memory` if an allocation fails.
pub fn explain_fault(alloc: Global, fault: FaultName) -> Result<Answer, Trouble> {
    let mut text = Vec::new(alloc);
    put_named(&mut text, fault.name)?;
    Ok(Answer { text, status: 0 })
}
