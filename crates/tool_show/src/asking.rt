//! Reads the options of the command `show`: the format, the moments to draw, and the width.

use crate::show_command::Show;
use lset_picture::Window;
use lset_text::number;
use tool_base::ValueName;

/// The width of a text picture, in characters, if `--width` is missing.
const DEFAULT_WIDTH: u32 = 100;

/// The format of a picture.
#[derive(Clone, Copy)]
pub enum Form {
    /// Text, with the maximum number of characters in a row.
    Text(u32),
    /// An SVG image.
    Svg,
}

/// Parses a number from `smallest` to 4,294,967,295. Returns `absent` if `text` is `None`. Returns `None` if the text
/// is not a number in that range.
fn number_or(text: Option<&str>, smallest: u32, absent: u32) -> Option<u32> {
    match text {
        Some(text) => number(text.as_bytes(), smallest, u32::MAX),
        None => Some(absent),
    }
}

/// Reads the options of the command `show`. `svg` is true if `--svg` is present. The values of `--from`, `--to` and
/// `--width` are decimals without leading zeros.
///
/// `from` is at least 1 and defaults to 1. `to` is at least `from` and defaults to the last moment (position in the
/// history). `width` is at least 1 and defaults to 100. An SVG has no width, but `width` is checked even with `--svg`.
/// The error names the first wrong option.
pub fn read_show(
    svg: bool,
    from: Option<&str>,
    to: Option<&str>,
    width: Option<&str>,
) -> Result<Show, ValueName> {
    let from = number_or(from, 1, 1).ok_or(ValueName::From)?;
    let to = number_or(to, from, u32::MAX).ok_or(ValueName::To)?;
    let width = number_or(width, 1, DEFAULT_WIDTH).ok_or(ValueName::Width)?;
    let form = if svg { Form::Svg } else { Form::Text(width) };
    Ok(Show {
        form,
        window: Window { from, to },
        lacks: None,
    })
}
