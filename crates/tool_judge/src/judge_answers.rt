ghost use Rattle.std.specs.Prelude.{◌≡◌, ◌≢◌, ◌⊎◌, ℕ, List, IfOk, IfErr, IfSome, Ok};
ghost use Rattle.lset_recording.specs.Kept.{IsRead};
ghost use Rattle.tool_base.specs.Tools as tools;
ghost use Rattle.tool_base.specs.declared.trouble.Trouble.TheVariants.{CannotRead};
ghost use Rattle.tool_judge.specs.Judging.{IsAnswerTo, Judges, JudgesBriefly, JudgesIn, shown_in, without_clash};
ghost use Rattle.tool_judge.specs.Exact.{AnswersAreRight};

use crate::texts::{ok_text, refusal_text};
use lset_judge::Verdict;
use lset_recording::{RecordingAnswer, RecordingReader};
use std::alloc::{AllocError, Global};
use std::io::Read;
use tool_base::{Answer, READ_SIZE, Trouble};

/// The level of detail of an answer. At every level, the answer states the verdict. After `ok`, the answer also states
/// how many calls overlap a change of their key, and remarks on a recording that was cut off.
#[derive(Clone, Copy, PartialEq, Eq)]
pub(crate) enum Detail {
    /// The answer also shows the contradiction if one was found, and gives advice if few calls overlap a change.
    Whole,
    /// The answer shows neither a contradiction nor advice.
    Brief,
}

/// Removes the contradiction from a verdict.
fn without_clash(verdict: Verdict) -> Verdict
    ensures { result ≡ without_clash verdict }
{
    match verdict {
        Verdict::Linearizable => Verdict::Linearizable,
        Verdict::NotLinearizable(refusal, _) => Verdict::NotLinearizable(refusal, None),
    }
}

/// Removes the contradiction from the answer `said` if `detail` is `Brief`.
fn in_detail(said: RecordingAnswer, detail: Detail) -> RecordingAnswer
    ensures verdict { result.verdict ≡ shown_in detail said.verdict }
    ensures calls { result.calls ≡ said.calls }
{
    match detail {
        Detail::Whole => said,
        Detail::Brief => RecordingAnswer {
            verdict: without_clash(said.verdict),
            ..said
        },
    }
}

/// Returns the text to print and the exit status for the verdict in `said`.
fn answer_to(alloc: Global, said: RecordingAnswer, detail: Detail) -> Result<Answer, AllocError>
    ensures { IfOk result (λ a. IsAnswerTo said.verdict said.calls (record { text = a.text.items; status = a.status })) }
{
    let RecordingAnswer {
        verdict,
        calls,
        overlapped,
        cut_off,
    } = said;
    match verdict {
        Verdict::Linearizable => Ok(Answer {
            text: ok_text(alloc, calls, overlapped, cut_off, detail)?,
            status: 0,
        }),
        Verdict::NotLinearizable(refusal, clash) => Ok(Answer {
            text: refusal_text(alloc, refusal, clash)?,
            status: 1,
        }),
    }
}

/// Returns the answer for a recording that `reader` has read to its end.
fn answer_of(alloc: Global, reader: RecordingReader, detail: Detail) -> Result<Answer, Trouble>
    ensures judges { (bytes : List ℕ) → IsRead bytes reader → JudgesIn detail bytes (tools.view result) }
    ensures read { IfErr result (λ t. t ≢ CannotRead) }
{
    let said = reader.finish()?;
    let shown = in_detail(said, detail);
    let answer = answer_to(alloc, shown, detail)?;
    Ok(answer)
}

/// Judges the text of a recording. The answer is `ok N calls` with exit status 0 if some order of the calls explains
/// all replies and ends with the final keys. The answer is `not linearizable` with exit status 1 if no order does. If
/// the recording was cut off, its final keys are unknown. The answer is then `ok` if some order explains the replies,
/// whatever final keys the order leaves. Allocates. Does not block.
///
/// After `ok N calls`, the answer states how many calls overlap a change of their key. If fewer than 5 of 100 calls
/// overlap a change, advice follows. If the recording was cut off, a remark follows. After `not linearizable`, the
/// answer names a key and a moment (a time in the recording): no order explains the key's calls up to the moment. If a
/// contradiction was found, the answer also shows the contradiction: one call leaves the key in a state, another call
/// needs the opposite state, and no call could have changed the state in between. The key's first or final state can
/// take the place of a call.
///
/// # Errors
///
/// Returns `Line` with the first wrong line and its cause if the bytes are not a recording, and `Memory` if an
/// allocation fails.
pub fn judge_bytes(alloc: Global, bytes: &[u8]) -> Result<Answer, Trouble>
    ensures judges { Judges bytes.now (tools.view result) }
    ensures read { IfErr result (λ t. t ≢ CannotRead) }
{
    let mut reader = RecordingReader::new(alloc);
    reader.feed(bytes)?;
    answer_of(alloc, reader, Detail::Whole)
}

/// Judges a recording that is read from `input`. Stops reading at the end of the input or at the first error.
fn judge_in<R: Read>(alloc: Global, input: &mut R, detail: Detail) -> Result<Answer, Trouble>
    ensures { IfSome (R.remaining input.old) (λ bytes. JudgesIn detail bytes (tools.view result)) }
{
    let mut reader = RecordingReader::new(alloc);
    let mut buffer = [0u8; READ_SIZE];
    for _ in 0..u64::MAX {
        let count = match input.read(&mut buffer) {
            Ok(count) => count,
            Err(_) => return Err(Trouble::CannotRead),
        };
        if count == 0 {
            return answer_of(alloc, reader, detail);
        }
        reader.feed(&buffer[..count])?;
    }
    Err(Trouble::CannotRead)
}

/// Judges a recording that is read from an input, as `judge_bytes` does. Reads pieces of `READ_SIZE` bytes and stops at
/// the end of the input or at the first error. Allocates. Blocks while reading.
///
/// # Errors
///
/// Returns the errors of `judge_bytes`, and `CannotRead` if a read fails; the read is not retried.
pub fn judge_input<R: Read>(alloc: Global, input: &mut R) -> Result<Answer, Trouble>
    ensures { IfSome (R.remaining input.old) (λ bytes. Judges bytes (tools.view result)) }
{
    judge_in(alloc, input, Detail::Whole)
}

/// Judges a recording that is read from an input, as `judge_input` does, but prints neither advice nor a contradiction.
/// Allocates. Blocks while reading.
///
/// # Errors
///
/// Returns the errors of `judge_input`.
pub fn judge_briefly<R: Read>(alloc: Global, input: &mut R) -> Result<Answer, Trouble>
    ensures { IfSome (R.remaining input.old) (λ bytes. JudgesBriefly bytes (tools.view result)) }
{
    judge_in(alloc, input, Detail::Brief)
}

/// Lemma: the answers of `judge_bytes`, `judge_input` and `judge_briefly` are correct. A recording has an order if some
/// order explains its calls and ends with its final keys (with any keys, if the recording was cut off). Unless an
/// allocation or a read fails, there are three cases:
/// - the answer is `ok` with status 0 if and only if the bytes are a recording that has an order;
/// - the answer is `not linearizable` with status 1 if and only if the bytes are a recording that has no order;
/// - the result is an error with a line and a cause if and only if the line is the first wrong line of the bytes and
///   the cause is correct.
pub fn answers_are_right()
    ensures { AnswersAreRight }
{}
