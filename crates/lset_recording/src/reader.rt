ghost use Rattle.std.specs.Prelude.{◌≡◌, ◌≢◌, ◌+◌, ◌++◌, ◌∷◌, [], Ok, Err, IfOk, IfErr, OnOk, List, ℕ, IsTrue, MatchOption, false, true};
ghost use Rattle.lset_text.specs.Causes.{fault};
ghost use Rattle.lset_text.specs.Parts.{Lacks};
ghost use Rattle.lset_recording.specs.Reading.{RecordingsAreRead, Says, first_line, takes_calls};
ghost use Rattle.lset_recording.specs.Texts.{Recording};
ghost use Rattle.lset_recording.specs.Kept.{HasFailed, IsAnswered, IsLineOf, IsRead, IsRefusedAt, newlines};

use crate::kept::Judging;
use crate::quick::quick_line;
use crate::recording_judge::RecordingAnswer;
use crate::recording_lines::{LONGEST_LINE, Line};
use arrayvec::ArrayVec;
use lset_judge::StreamCall;
use lset_text::{Cause, LineFault};
use memchr::memchr;
use std::alloc::Global;

/// Returns the bytes before the first newline and the bytes after the first newline. Returns `None` if there is no
/// newline.
fn next_line(bytes: &[u8]) -> Option<(&[u8], &[u8])>
    ensures { MatchOption result (Lacks 10 bytes.now) (λ p. (bytes.now ≡ p.0.now ++ 10 ∷ p.1.now) × Lacks 10 p.0.now) }
{
    let at = memchr(b'\n', bytes)?;
    Some((&bytes[..at], &bytes[at + 1..]))
}

/// Reads a recording and judges its calls. The caller passes the text in pieces of any length. Each call is judged as
/// soon as its line is complete. A reader stores the keys, the pending calls, at most one completed call on each key,
/// and at most `LONGEST_LINE` bytes of an incomplete line. Its memory grows with the numbers of keys, threads, and
/// pending calls, but not with the number of completed calls. The first line of a recording is `listset-calls 1`. (The
/// format is this project's own.)
#[derive(Drop)]
pub struct RecordingReader {
    judging: Judging,
    line: ArrayVec<u8, LONGEST_LINE>,
    // Whether the incomplete line is longer than `LONGEST_LINE` bytes. If true, `line` does not contain all bytes of
    // the incomplete line.
    is_long: bool,
    // The error that `feed` has returned, if any.
    failed: Option<LineFault>,
}

impl RecordingReader {
    /// Returns a reader that has not read anything yet. Does not allocate. Later calls to the reader's functions
    /// allocate with `alloc`.
    pub fn new(alloc: Global) -> RecordingReader
        ensures { IsRead [] result }
    {
        RecordingReader {
            judging: Judging::new(alloc),
            line: ArrayVec::new(),
            is_long: false,
            failed: None,
        }
    }

    fn fault(&self, cause: Cause) -> LineFault
        ensures { result ≡ fault self.now.judging.number cause }
    {
        LineFault::at(self.judging.number(), cause)
    }

    /// Returns whether the reader is at the start of a line, with no stored bytes of an incomplete line.
    fn holds_none(&self) -> bool
        ensures { IsTrue result → (self.now.line.items ≡ []) × (self.now.is_long ≡ false) }
    {
        !self.is_long && self.line.as_slice().is_empty()
    }

    /// Stores the bytes of a line that has no newline yet. If the line is too long, only sets `is_long`.
    fn hold(&mut self, bytes: &[u8])
        requires { Lacks 10 bytes.now }
        ensures read { (before : List ℕ) → IsRead before self.old → IsRead (before ++ bytes.now) self.new }
        ensures same { self.new.judging ≡ self.old.judging }
    {
        match self.line.try_extend_from_slice(bytes) {
            Ok(()) => {}
            Err(_) => self.is_long = true,
        }
    }

    /// Reads the newline that completes the stored line.
    fn newline_in(&mut self) -> Result<(), LineFault>
        ensures taken { OnOk result ((bytes : List ℕ) → IsRead bytes self.old → IsRead (bytes ++ 10 ∷ []) self.new) }
        ensures refused { IfErr result (λ fault. (bytes : List ℕ) → IsRead bytes self.old → IsRefusedAt (bytes ++ 10 ∷ []) fault) }
        ensures line { IfErr result (λ fault. fault.line ≡ self.old.judging.number) }
    {
        if self.is_long {
            return Err(self.fault(self.judging.cause_if_long()));
        }
        match self.judging.read_line(self.line.as_slice()) {
            Ok(()) => {
                self.line.clear();
                Ok(())
            }
            Err(cause) => Err(self.fault(cause)),
        }
    }

    /// Reads a complete line, without its newline and without copying it. The reader must not have stored any bytes of
    /// the line before.
    fn whole_line_in(&mut self, line: &[u8]) -> Result<(), LineFault>
        requires lacks { Lacks 10 line.now }
        requires none { self.old.line.items ≡ [] }
        requires short { self.old.is_long ≡ false }
        ensures taken { OnOk result ((bytes : List ℕ) → IsRead bytes self.old → IsRead (bytes ++ line.now ++ 10 ∷ []) self.new) }
        ensures refused { IfErr result (λ fault. (bytes : List ℕ) → IsRead bytes self.old
            → IsRefusedAt (bytes ++ line.now ++ 10 ∷ []) fault) }
        ensures line { IfErr result (λ fault. fault.line ≡ self.old.judging.number) }
    {
        match self.judging.read_line(line) {
            Ok(()) => Ok(()),
            Err(cause) => Err(self.fault(cause)),
        }
    }

    /// Completes a line by reading its remaining bytes, without the newline.
    fn line_in(&mut self, line: &[u8]) -> Result<(), LineFault>
        requires { Lacks 10 line.now }
        ensures taken { OnOk result ((bytes : List ℕ) → IsRead bytes self.old → IsRead (bytes ++ line.now ++ 10 ∷ []) self.new) }
        ensures refused { IfErr result (λ fault. (bytes : List ℕ) → IsRead bytes self.old
            → IsRefusedAt (bytes ++ line.now ++ 10 ∷ []) fault) }
        ensures line { IfErr result (λ fault. fault.line ≡ self.old.judging.number) }
    {
        if self.holds_none() {
            return self.whole_line_in(line);
        }
        self.hold(line);
        self.newline_in()
    }

    /// Reads lines of completed calls from the start of a piece of the text, and stops before the first line of any
    /// other kind. Returns the remaining bytes. The reader must be at the start of a line, in a section of the
    /// recording that allows calls.
    fn quick_calls_in<'a>(&mut self, piece: &'a [u8]) -> Result<&'a [u8], LineFault>
        requires none { self.old.line.items ≡ [] }
        requires short { self.old.is_long ≡ false }
        requires takes { takes_calls self.old.judging.section ≡ true }
        ensures taken { IfOk result (λ rest. (done : List ℕ) × (piece.now ≡ done ++ rest.now)
            × ((bytes : List ℕ) → IsRead bytes self.old → IsRead (bytes ++ done) self.new)) }
        ensures refused { IfErr result (λ fault. (bytes : List ℕ) → IsRead bytes self.old → IsRefusedAt (bytes ++ piece.now) fault) }
        ensures line { IfErr result (λ fault. (bytes : List ℕ) → IsRead bytes self.old → IsLineOf bytes piece.now fault.line) }
    {
        let mut rest = piece;
        while let Some((call, more)) = quick_line(rest) {
            if let Err(cause) = self.judging.put(Line::Call(call)) {
                return Err(self.fault(cause));
            }
            rest = more;
        }
        Ok(rest)
    }

    /// Reads lines of completed calls from the start of a piece of the text, and returns the remaining bytes. Reads
    /// nothing unless the reader is at the start of a line, in a section of the recording that allows calls.
    fn calls_in<'a>(&mut self, piece: &'a [u8]) -> Result<&'a [u8], LineFault>
        ensures taken { IfOk result (λ rest. (done : List ℕ) × (piece.now ≡ done ++ rest.now)
            × ((bytes : List ℕ) → IsRead bytes self.old → IsRead (bytes ++ done) self.new)) }
        ensures refused { IfErr result (λ fault. (bytes : List ℕ) → IsRead bytes self.old → IsRefusedAt (bytes ++ piece.now) fault) }
        ensures line { IfErr result (λ fault. (bytes : List ℕ) → IsRead bytes self.old → IsLineOf bytes piece.now fault.line) }
    {
        if self.holds_none() && self.judging.takes_calls() {
            self.quick_calls_in(piece)
        } else {
            Ok(piece)
        }
    }

    /// Reads a piece of the text. `feed` calls `bytes_in` only if `feed` has returned no error before.
    fn bytes_in(&mut self, piece: &[u8]) -> Result<(), LineFault>
        ensures taken { OnOk result ((bytes : List ℕ) → IsRead bytes self.old → IsRead (bytes ++ piece.now) self.new) }
        ensures refused { IfErr result (λ fault. (bytes : List ℕ) → IsRead bytes self.old → IsRefusedAt (bytes ++ piece.now) fault) }
        ensures line { IfErr result (λ fault. (bytes : List ℕ) → IsRead bytes self.old → IsLineOf bytes piece.now fault.line) }
    {
        let mut rest = self.calls_in(piece)?;
        while let Some((line, more)) = next_line(rest) {
            if let Err(fault) = self.line_in(line) {
                return Err(fault);
            }
            rest = match self.calls_in(more) {
                Ok(rest) => rest,
                Err(fault) => return Err(fault),
            };
        }
        self.hold(rest);
        Ok(())
    }

    /// Reads the next piece of the text, and judges each call as soon as its line is complete. Allocates; does not
    /// block.
    ///
    /// # Errors
    ///
    /// Returns the first error of the text, which does not depend on later pieces, or `Cause::Memory` if an allocation
    /// fails. The error names a line that ends in `piece`. After an error, each later call to `feed` or `finish`
    /// returns the same error.
    #[tactic(auto, using(crate::proofs::ReadLaws::none_failed, crate::proofs::ReadLaws::one_failed))]
    pub fn feed(&mut self, piece: &[u8]) -> Result<(), LineFault>
        ensures taken { OnOk result ((bytes : List ℕ) → IsRead bytes self.old → IsRead (bytes ++ piece.now) self.new) }
        ensures refused { IfErr result (λ fault. (bytes : List ℕ) → IsRead bytes self.old → IsRefusedAt (bytes ++ piece.now) fault) }
        ensures line { IfErr result (λ fault. (bytes : List ℕ) → IsRead bytes self.old → IsLineOf bytes piece.now fault.line) }
        ensures failed { IfErr result (HasFailed self.new) }
        ensures still { (fault : LineFault) → HasFailed self.old fault → result ≡ Err fault }
    {
        if let Some(fault) = self.failed {
            return Err(fault);
        }
        match self.bytes_in(piece) {
            Ok(()) => Ok(()),
            Err(fault) => {
                self.failed = Some(fault);
                Err(fault)
            }
        }
    }

    /// Removes the calls that were read since the last call to `take_calls`, and returns them in the order of their
    /// lines. The first call to `take_calls` returns no calls. From then on, the reader stores each call until
    /// `take_calls` returns it, and the reader's memory grows with the number of stored calls.
    pub fn take_calls(&mut self) -> Vec<StreamCall>
        ensures { (bytes : List ℕ) → IsRead bytes self.old → IsRead bytes self.new }
    {
        let alloc = self.judging.alloc;
        let untaken = std::mem::replace(&mut self.judging.untaken, Some(Vec::new(alloc)));
        untaken.unwrap_or(Vec::new(alloc))
    }

    /// Ends the text. Returns the verdict and the counts, or an error if the text is incomplete. `finish` calls `end`
    /// only if `feed` has returned no error.
    fn end(self) -> Result<RecordingAnswer, LineFault>
        ensures said { IfOk result (λ answer. (bytes : List ℕ) → IsRead bytes self
            → (c : Recording) × Says bytes (Ok c) × IsAnswered c answer) }
        ensures refused { IfErr result (λ fault. fault.cause ≢ Cause.Memory → (bytes : List ℕ) → IsRead bytes self
            → Says bytes (Err fault)) }
        ensures line { IfErr result (λ fault. (bytes : List ℕ) → IsRead bytes self → fault.line ≡ first_line + newlines bytes) }
    {
        if self.is_long || !self.line.as_slice().is_empty() {
            return Err(self.fault(Cause::NotEnded));
        }
        self.judging.finish()
    }

    /// Ends the text and returns the verdict: whether the calls, executed one at a time in some order (calls that do
    /// not overlap keep their order), return the recorded replies and leave the final keys. If the recording was cut
    /// off, its final keys are unknown, and the calls can leave any keys. Allocates; does not block.
    #[tactic(auto, using(crate::proofs::ReadLaws::none_failed, crate::proofs::ReadLaws::one_failed))]
    pub fn finish(self) -> Result<RecordingAnswer, LineFault>
        ensures said { IfOk result (λ answer. (bytes : List ℕ) → IsRead bytes self
            → (c : Recording) × Says bytes (Ok c) × IsAnswered c answer) }
        ensures refused { IfErr result (λ fault. fault.cause ≢ Cause.Memory → (bytes : List ℕ) → IsRead bytes self
            → Says bytes (Err fault)) }
        ensures line { IfErr result (λ fault. (bytes : List ℕ) → IsRead bytes self → fault.line ≡ first_line + newlines bytes) }
        ensures still { (fault : LineFault) → HasFailed self fault → result ≡ Err fault }
    {
        match self.failed {
            Some(fault) => Err(fault),
            None => self.end(),
        }
    }
}

/// Lemma: if bytes are read as a recording, they are the text of that recording. Therefore each recording has only one
/// text.
#[tactic(auto, using(crate::proofs::TextFound::text_found))]
pub fn recordings_are_read()
    ensures { RecordingsAreRead }
{}
