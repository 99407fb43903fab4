ghost use Rattle.std.specs.Prelude.{◌≡◌};
ghost use Rattle.lset_report.specs.Texts.{title};

use lset_text::Version;

const TITLE_ONE: &str = "listset-report 1";

/// The first line of a report in version 2 of the format, which adds opening keys (the keys at the start), and
/// `ceiling` with its replies.
const TITLE_TWO: &str = "listset-report 2";

/// Returns the first line of a report in the given version of the format.
pub(crate) fn title(version: Version) -> &'static str
    ensures { result.now ≡ title version }
{
    match version {
        Version::One => TITLE_ONE,
        Version::Two => TITLE_TWO,
    }
}
