use crate::page_arguments::{option_at, words_in};
use broken_lists::{BrokenList, named};
use std::alloc::Global;
use tool_base::{Answer, Trouble, ValueName, answer_text};
use tool_judge::ShowJudged;
use tool_replay::{ReplayBroken, Trace, print_example, read_example_request};
use tool_show::{Show, read_show};

/// Reads the three options of `show` (first moment, last moment and width) from `words`, beginning at index `first`.
/// The error names the first wrong option.
fn show_by(svg: bool, words: &[String], first: usize) -> Result<Show, ValueName> {
    let from = option_at(words, first);
    let to = option_at(words, first.saturating_add(1));
    let width = option_at(words, first.saturating_add(2));
    read_show(svg, from, to, width)
}

/// Draws a schedule or a report as text or, if `svg` is true, as an SVG. The options are the first and the last moment
/// to draw (numbers of events in the run), and the width. Returns the errors of `ShowJudged`, and `Bad` if an option is
/// wrong.
pub fn draw_text(alloc: Global, text: &[u8], svg: bool, options: &[u8]) -> Result<Answer, Trouble> {
    let words = words_in(alloc, options)?;
    let show = show_by(svg, &words, 0)?;
    answer_text(alloc, &ShowJudged { show }, text)
}

/// Runs a command on a schedule and a broken list (a list without one of its checks). The first of `words` is the
/// command; `show` and `show_svg` then take the options of `draw_text`. The error is `Bad` if the command, the list's
/// name or an option is wrong.
pub fn run_broken(
    alloc: Global,
    name: &[u8],
    text: &[u8],
    words: &[u8],
) -> Result<Answer, Trouble> {
    let words = words_in(alloc, words)?;
    let Some(command) = words.first() else {
        return Err(Trouble::Bad(ValueName::Name));
    };
    let command = command.as_bytes();
    let show = show_by(command == b"show_svg".as_slice(), &words, 1)?;
    let broken = named(name).ok_or(Trouble::Bad(ValueName::Lacks))?;
    match command {
        b"replay" => answer_text(alloc, &ReplayBroken { broken }, text),
        b"trace" => trace(alloc, broken, text, false),
        b"trace_with_chains" => trace(alloc, broken, text, true),
        b"show" | b"show_svg" => {
            let lacks = Some(broken);
            let show = Show { lacks, ..show };
            answer_text(alloc, &ShowJudged { show }, text)
        }
        _ => Err(Trouble::Bad(ValueName::Name)),
    }
}

/// Returns the trace of a schedule that runs on a broken list (a list without one of its checks).
fn trace(alloc: Global, broken: BrokenList, text: &[u8], chains: bool) -> Result<Answer, Trouble> {
    let lacks = Some(broken);
    answer_text(alloc, &Trace { chains, lacks }, text)
}

/// Returns the output of the command `example`: the list of examples if `name` is `None`, otherwise the example's
/// schedule or, if `broken` is true, its report of a broken list (a list without one of its checks).
pub fn example_by(alloc: Global, name: Option<&[u8]>, broken: bool) -> Result<Answer, Trouble> {
    let request = read_example_request(name, broken)?;
    print_example(alloc, request)
}
