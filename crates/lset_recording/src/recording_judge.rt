//! Processes the lines of a recording: passes the calls to a judge and stores the keys.

ghost use Rattle.std.specs.Prelude.{◌≡◌, ◌≢◌, ◌+◌, ◌++◌, ◌∷◌, [], true, false, Ok, Err, None, Some, IfOk, IfErr, OnOk, OnErr, List, ℕ, is_some};
ghost use Rattle.std.specs.List.Sorted.{IsStrictlyIncreasing};
ghost use Rattle.lset_words.specs.declared.history.CallRecord.{CallRecord as RecordedCall};
ghost use Rattle.lset_words.specs.History.{MayFollow};
ghost use Rattle.lset_text.specs.Openings.{is_above};
ghost use Rattle.lset_judge.specs.Stream.{record_of};
ghost use Rattle.lset_recording.specs.Texts.{IsRecording, Recording, all_threads};
ghost use Rattle.lset_recording.specs.Reading.{Comes, GoesOn, IsFormed, IsTaken, IsRefused, IsVerdictOnRecording, SoFar, cause_at_end, cause_if_long, cause_of, ending, is_done, nothing_told, section_after, takes_calls, with_line, with_told};
ghost use Rattle.lset_recording.specs.Kept.{IsAnswered, IsFirst, IsJudging, IsKept, IsJudgeKept};

use crate::kept::Judging;
use crate::recording_lines::{Line, Section, line_told};
use lset_judge::{Judge, StreamCall, StreamFault, Verdict};
use lset_text::{Cause, LineFault, is_above};
use std::alloc::{AllocError, Global};

/// The number of the title line, which is the first line.
const FIRST_LINE: u64 = 1;

/// The verdict on a recording, counts of its calls, and whether the recording was cut off.
#[derive(Debug, Drop)]
pub struct RecordingAnswer {
    /// Whether the recorded calls are linearizable, which means that the calls, executed one at a time in some order
    /// (calls that do not overlap keep their order), return the recorded replies and leave the final keys. If the calls
    /// are not linearizable, the verdict has the reason.
    pub verdict: Verdict,
    /// The number of calls in the recording.
    pub calls: u64,
    /// The number of calls that overlap another call that changed the same key (an `add` or a `remove` that returned
    /// true). The number can be wrong if the calls are not linearizable.
    pub overlapped: u64,
    /// True if the recording was cut off and its final keys are therefore unknown.
    pub cut_off: bool,
}

/// Returns `judge` or, if `judge` is `None`, a new judge for a set that opens with the keys `opening`. If an allocation
/// fails, returns `AllocError`.
#[tactic(auto, using(crate::proofs::NextCalls::opened))]
fn or_opened(alloc: Global, judge: Option<Judge>, opening: &[u32]) -> Result<Judge, AllocError>
    requires { IsStrictlyIncreasing opening.now }
    ensures { IfOk result (λ j. (calls : List RecordedCall) → IsJudgeKept opening.now calls judge → IsJudgeKept opening.now calls (Some j)) }
{
    match judge {
        Some(judge) => Ok(judge),
        None => Judge::new(alloc, opening),
    }
}

/// Returns the cause to report if the judge refuses a call: `Memory` if an allocation failed, and `History` otherwise.
fn cause_of_fault(fault: StreamFault) -> Cause
    ensures memory { result ≢ Cause.Memory → fault ≢ StreamFault.Memory }
    ensures other { result ≢ Cause.Memory → result ≡ Cause.History }
{
    match fault {
        StreamFault::Memory => Cause::Memory,
        StreamFault::Early
        | StreamFault::Ends
        | StreamFault::NotPlain
        | StreamFault::Taken
        | StreamFault::Busy => Cause::History,
    }
}

/// Passes a call to the judge. Returns `History` if the call cannot follow the earlier calls, and `Memory` if an
/// allocation fails.
fn add_call(judge: &mut Judge, call: StreamCall) -> Result<(), Cause>
    requires { IsFormed (Line.Call call) }
    ensures added { OnOk result ((opening : List ℕ) (calls : List RecordedCall) → IsJudgeKept opening calls (Some judge.old)
        → MayFollow all_threads calls (record_of call) × IsJudgeKept opening (calls ++ record_of call ∷ []) (Some judge.new)) }
    ensures refused { IfErr result (λ cause. cause ≢ Cause.Memory → (cause ≡ Cause.History)
        × ((opening : List ℕ) (calls : List RecordedCall) → IsJudgeKept opening calls (Some judge.old)
        → MayFollow all_threads calls (record_of call) → ⊥)) }
{
    match judge.add(call) {
        Ok(()) => Ok(()),
        Err(fault) => Err(cause_of_fault(fault)),
    }
}

/// Appends a key to strictly increasing keys. Returns `Opening` if the new key is not greater than the last key in
/// `keys`, and `Memory` if an allocation fails.
fn add_key(keys: &mut Vec<u32>, key: u32) -> Result<(), Cause>
    requires { IsStrictlyIncreasing keys.old.items }
    ensures increase { IsStrictlyIncreasing keys.new.items }
    ensures added { OnOk result ((keys.new.items ≡ keys.old.items ++ key ∷ []) × (is_above keys.old.items key ≡ true)) }
    ensures refused { IfErr result (λ cause. cause ≢ Cause.Memory
        → (cause ≡ Cause.Opening) × (is_above keys.old.items key ≡ false)) }
{
    if !is_above(keys, key) {
        return Err(Cause::Opening);
    }
    keys.push(key)?;
    Ok(())
}

/// Stores a new judge in `place`. If an allocation fails, returns `AllocError`. A separate function keeps the judge out
/// of the stack frames of the callers.
fn create_judge(alloc: Global, opening: &[u32], place: &mut Option<Judge>) -> Result<(), AllocError>
    requires increase { IsStrictlyIncreasing opening.now }
    requires none { place.old ≡ None }
    ensures ready { OnOk result (is_some place.new ≡ true) }
    ensures kept { OnOk result ((calls : List RecordedCall) → IsJudgeKept opening.now calls place.old
        → IsJudgeKept opening.now calls place.new) }
{
    let judge = Judge::new(alloc, opening)?;
    *place = Some(judge);
    Ok(())
}

/// Appends a call to the calls that the next `take_calls` will return. Does nothing if `take_calls` has never been
/// called. If an allocation fails, returns `AllocError`.
#[inline(always)]
fn store_untaken(
    untaken: &mut Option<Vec<StreamCall>>,
    call: StreamCall,
) -> Result<(), AllocError> {
    if let Some(calls) = untaken {
        calls.push(call)?;
    }
    Ok(())
}

impl Judging {
    pub(crate) fn new(alloc: Global) -> Judging
        ensures { IsJudging nothing_told result }
    {
        Judging {
            alloc,
            section: Section::Title,
            opening: Vec::new(alloc),
            judge: None,
            calls: 0,
            untaken: None,
            keys: Vec::new(alloc),
            cut_off: false,
            number: FIRST_LINE,
        }
    }

    /// Creates the judge from the opening keys, unless the reader already has a judge. If an allocation fails, returns
    /// `AllocError`.
    fn open(&mut self) -> Result<(), AllocError>
        ensures kept { OnOk result ((c : Recording) → IsKept c self.old → IsKept c self.new) }
        ensures ready { OnOk result (is_some self.new.judge ≡ true) }
        ensures same { (self.new.section ≡ self.old.section) × (self.new.number ≡ self.old.number) }
    {
        match self.judge {
            Some(_) => Ok(()),
            None => create_judge(self.alloc, &self.opening, &mut self.judge),
        }
    }

    #[inline(always)]
    fn keep_call(&mut self, call: StreamCall) -> Result<(), Cause>
        requires { IsFormed (Line.Call call) }
        ensures kept { OnOk result ((c : Recording) → IsKept c self.old
            → GoesOn c (Line.Call call) × IsKept (with_line c (Line.Call call)) self.new) }
        ensures same { (self.new.section ≡ self.old.section) × (self.new.number ≡ self.old.number) }
        ensures refused { IfErr result (λ cause. cause ≢ Cause.Memory → (cause ≡ Cause.History)
            × ((c : Recording) → IsKept c self.old → GoesOn c (Line.Call call) → ⊥)) }
    {
        self.open()?;
        match &mut self.judge {
            Some(judge) => {
                if let Err(cause) = add_call(judge, call) {
                    return Err(cause);
                }
            }
            None => unreachable!(),
        }
        self.calls = self.calls.saturating_add(1);
        store_untaken(&mut self.untaken, call)?;
        Ok(())
    }

    /// Adds the content of a line to the recording read so far. Returns `History` or `Opening` if the line is
    /// inconsistent with the recording read so far, and `Memory` if an allocation fails.
    #[inline(always)]
    fn keep(&mut self, line: Line) -> Result<(), Cause>
        requires { IsFormed line }
        ensures kept { OnOk result ((s : SoFar) → IsJudging s self.old → Comes s.section line
            → GoesOn s.told line × IsKept (with_line s.told line) self.new × IsFirst (section_after line) self.new.judge) }
        ensures same { (self.new.section ≡ self.old.section) × (self.new.number ≡ self.old.number) }
        ensures refused { IfErr result (λ cause. cause ≢ Cause.Memory → (cause ≡ cause_of line)
            × ((s : SoFar) → IsJudging s self.old → GoesOn s.told line → ⊥)) }
    {
        match line {
            Line::Opening(key) => add_key(&mut self.opening, key),
            Line::Call(call) => self.keep_call(call),
            Line::Key(key) => add_key(&mut self.keys, key),
            Line::Title | Line::End => Ok(()),
            Line::Cut => {
                self.cut_off = true;
                Ok(())
            }
        }
    }

    /// Adds a line, of a kind that the current section allows, to the recording read so far, and continues with the
    /// next line. Returns `History` or `Opening` if the line is inconsistent with the recording read so far, and
    /// `Memory` if an allocation fails.
    #[inline(always)]
    pub(crate) fn put(&mut self, line: Line) -> Result<(), Cause>
        requires { IsFormed line }
        ensures taken { OnOk result ((s : SoFar) → IsJudging s self.old → Comes s.section line
            → GoesOn s.told line × IsJudging (with_told s line) self.new × (self.new.number ≡ self.old.number + 1)) }
        ensures same { OnErr result (self.new.number ≡ self.old.number) }
        ensures refused { IfErr result (λ cause. cause ≢ Cause.Memory → (cause ≡ cause_of line)
            × ((s : SoFar) → IsJudging s self.old → GoesOn s.told line → ⊥)) }
    {
        self.keep(line)?;
        self.section = line.section();
        self.number = self.number.saturating_add(1);
        Ok(())
    }

    /// Returns the number of the next line.
    pub(crate) fn number(&self) -> u64
        ensures { result ≡ self.now.number }
    {
        self.number
    }

    /// Reads a line, without its newline. If the line is not valid or an allocation fails, returns the cause.
    pub(crate) fn read_line(&mut self, line: &[u8]) -> Result<(), Cause>
        ensures taken { OnOk result ((s : SoFar) → IsJudging s self.old
            → (t : SoFar) × IsTaken s line.now t × IsJudging t self.new × (self.new.number ≡ self.old.number + 1)) }
        ensures same { OnErr result (self.new.number ≡ self.old.number) }
        ensures refused { IfErr result (λ cause. cause ≢ Cause.Memory → (s : SoFar) → IsJudging s self.old
            → IsRefused s line.now cause) }
    {
        let line = line_told(self.section, line)?;
        self.put(line)
    }

    /// Returns whether the next line can be the line of a call.
    pub(crate) fn takes_calls(&self) -> bool
        ensures { result ≡ takes_calls self.now.section }
    {
        self.section.takes_calls()
    }

    /// Returns the cause to report if the next line is too long.
    pub(crate) fn cause_if_long(&self) -> Cause
        ensures { result ≡ cause_if_long self.now.section }
    {
        if self.section.is_title() {
            Cause::Header
        } else {
            Cause::Line
        }
    }

    /// Returns the cause to report if the text ends after a line that is neither `end` nor `cut`.
    fn cause_at_end(&self) -> Cause
        ensures { result ≡ cause_at_end self.now.section }
    {
        if self.section.is_title() {
            Cause::Header
        } else {
            Cause::NotEnded
        }
    }

    fn is_done(&self) -> bool
        ensures { result ≡ is_done self.now.section }
    {
        matches!(self.section, Section::Done)
    }

    fn overlapped(&self) -> u64 {
        match &self.judge {
            Some(judge) => judge.overlapped(),
            None => 0,
        }
    }

    fn verdict(self) -> Result<Verdict, AllocError>
        ensures { IfOk result (λ verdict. (s : SoFar) → IsJudging s self → IsRecording s.told × IsVerdictOnRecording s.told verdict) }
    {
        let judge = or_opened(self.alloc, self.judge, &self.opening)?;
        if self.cut_off {
            judge.close_cut_off()
        } else {
            judge.close(&self.keys)
        }
    }

    /// Ends the text after a complete line, and returns the verdict and the counts. Returns an error if the text is
    /// incomplete or an allocation fails.
    pub(crate) fn finish(self) -> Result<RecordingAnswer, LineFault>
        ensures said { IfOk result (λ answer. (s : SoFar) → IsJudging s self
            → (ending self.number s [] ≡ Ok s.told) × IsAnswered s.told answer) }
        ensures refused { IfErr result (λ fault. fault.cause ≢ Cause.Memory → (s : SoFar) → IsJudging s self
            → ending self.number s [] ≡ Err fault) }
        ensures line { IfErr result (λ fault. fault.line ≡ self.number) }
    {
        let (number, calls, cut_off) = (self.number, self.calls, self.cut_off);
        let overlapped = self.overlapped();
        if !self.is_done() {
            return Err(LineFault::at(number, self.cause_at_end()));
        }
        match self.verdict() {
            Ok(verdict) => Ok(RecordingAnswer {
                verdict,
                calls,
                overlapped,
                cut_off,
            }),
            Err(_) => Err(LineFault::at(number, Cause::Memory)),
        }
    }
}
