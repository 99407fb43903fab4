ghost use Rattle.std.specs.Prelude.{IsTrue};
ghost use Rattle.std.specs.List.{AllByRecursion};
ghost use Rattle.lset_text.specs.Openings.{HasOpening};
ghost use Rattle.lset_schedule.specs.Plan.{HasCallOfLine};

use lset_schedule::{Line, Version};
use lset_words::Call;

fn is_of_first(line: &Line) -> bool
    ensures { IsTrue result → HasCallOfLine Version.One line.now }
{
    match *line {
        Line::Begin(_, Call::Ceiling(_)) => false,
        Line::Begin(_, Call::Add(_) | Call::Remove(_) | Call::Contains(_)) | Line::Go(_, _) => true,
    }
}

fn are_of_first(lines: &[Line]) -> bool
    ensures { IsTrue result → AllByRecursion (HasCallOfLine Version.One) lines.now }
{
    for line in lines {
        if !is_of_first(line) {
            return false;
        }
    }
    true
}

/// Returns the lowest version of the schedule format that can express the opening keys (keys at the start) in `opening`
/// and the lines in `lines`.
pub(crate) fn smallest_version(opening: &[u32], lines: &[Line]) -> Version
    ensures opening { HasOpening result opening.now }
    ensures calls { AllByRecursion (HasCallOfLine result) lines.now }
{
    if opening.is_empty() && are_of_first(lines) {
        Version::One
    } else {
        Version::Two
    }
}
