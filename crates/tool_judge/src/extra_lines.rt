ghost use Rattle.std.specs.Prelude.{ℕ, List};
ghost use Rattle.tool_base.specs.Tools.{view};
ghost use Rattle.tool_judge.specs.Judging.{Judges};

use tool_base::{Answer, Trouble};

/// Appends lines to an answer of `judge_bytes` or `judge_input`. The verdict and the exit status do not change. If an
/// allocation fails, returns the answer without the lines. If `made` is an error, returns the error unchanged.
/// Allocates. Does not block.
pub fn with_lines(made: Result<Answer, Trouble>, lines: &[u8]) -> Result<Answer, Trouble>
    ensures { (bytes : List ℕ) → Judges bytes (view made) → Judges bytes (view result) }
{
    match made {
        Ok(mut answer) => {
            let _added = answer.text.extend_from_slice(lines);
            Ok(answer)
        }
        Err(trouble) => Err(trouble),
    }
}
