use crate::asking::Form;
use crate::schedules::picture_of_replay;
use broken_lists::{BrokenList, report_broken};
use lset_picture::{
    Picture, Window, is_past_the_last, picture_of_report, write_picture, write_svg,
};
use lset_report::read_report;
use lset_schedule::read_schedule;
use std::alloc::Global;
use tool_base::{Answer, Trouble, ValueName};

const TITLE_ONE: &[u8] = b"listset-report 1\n";

const TITLE_TWO: &[u8] = b"listset-report 2\n";

/// The options of the command `show`.
#[derive(Clone, Copy)]
pub struct Show {
    /// The format of the picture: text or SVG.
    pub form: Form,
    /// The range of moments (positions in the history) to draw.
    pub window: Window,
    /// The broken list (a list without one of its checks) that runs the schedule. `None` selects the list that the
    /// schedule names.
    pub lacks: Option<BrokenList>,
}

/// Returns the exit status: 1 if the picture shows a refused order or event, otherwise 0.
fn status_of(picture: &Picture) -> u8 {
    if picture.refusal.is_none() && picture.refused.is_none() {
        0
    } else {
        1
    }
}

impl Show {
    /// Reads a schedule or a report and returns its picture. If `self` selects a broken list (a list without one of its
    /// checks), the text must be a schedule, and the picture shows the report of the schedule's run on the broken list.
    /// Allocates.
    ///
    /// The error is `Memory`, or `Line` with the first error of the text. The text is read by `report_broken` if a
    /// broken list is selected, by `read_report` if the text starts with a report's title, and otherwise by
    /// `read_schedule`.
    pub fn picture(self, alloc: Global, bytes: &[u8]) -> Result<Picture, Trouble> {
        if let Some(broken) = self.lacks {
            let report = report_broken(alloc, broken, bytes)?;
            return Ok(picture_of_report(alloc, report)?);
        }
        if bytes.starts_with(TITLE_ONE) || bytes.starts_with(TITLE_TWO) {
            let report = read_report(alloc, bytes)?;
            return Ok(picture_of_report(alloc, report)?);
        }
        let schedule = read_schedule(alloc, bytes)?;
        Ok(picture_of_replay(alloc, &schedule)?)
    }

    /// Draws a picture, limited to the range of moments (positions in the history) in `self`. The exit status is 1 if
    /// the picture shows a refused order or event, otherwise 0. Returns `Bad(From)` if the range begins after the last
    /// moment of the run, and `Memory` if an allocation fails. Allocates.
    pub fn draw(self, alloc: Global, picture: &Picture) -> Result<Answer, Trouble> {
        if is_past_the_last(picture, self.window.from) {
            return Err(Trouble::Bad(ValueName::From));
        }
        let text = match self.form {
            Form::Text(width) => write_picture(alloc, picture, self.window, width)?,
            Form::Svg => write_svg(alloc, picture, self.window)?,
        };
        Ok(Answer {
            text,
            status: status_of(picture),
        })
    }
}
