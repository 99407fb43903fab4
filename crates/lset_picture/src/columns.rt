//! Computes the columns of a picture. Each column stands for a moment (a position in the history) when a call starts,
//! takes effect or ends.
use crate::MOST_WIDTH;
use crate::beginning::clash_begins;
use crate::drawn_moments::{moments_shown, next_moment};
use crate::drawn_sets::{go_on, reached_at_first, set_text};
use crate::picture::{Picture, Window, are_known, points_of, standing_at};
use lset_text::{call_word, reply_word};
use lset_words::{Call, CallRecord, Reply};
use std::alloc::{AllocError, Global};

/// A sign on a thread's row: a call starts, takes effect and changes the set, takes effect without a change, or ends.
#[derive(Clone, Copy)]
pub(crate) enum Sign {
    Begin(Call),
    Change,
    Fit,
    End(Reply),
}

/// A sign, and the thread on whose row the sign is drawn.
#[derive(Clone, Copy)]
pub(crate) struct Mark {
    pub thread: u32,
    pub sign: Sign,
}

/// A column of the picture: the signs at one moment (a position in the history), the set as text (empty if the set is
/// not printed in the column), and the width in characters.
#[derive(Drop)]
pub(crate) struct Column {
    pub moment: u32,
    pub marks: Vec<Mark>,
    pub set: String,
    pub width: usize,
}

/// The position of a bar or point relative to the drawn moments (positions in the history): before them, at least
/// partly among them, or after them.
#[derive(Clone, Copy)]
pub(crate) enum Side {
    Before,
    Within,
    After,
}

/// The columns of a picture, and what is left out. `known` is true if every linearization point is known. `from` is the
/// first moment of the window, and `last` is the moment of the last column (both are positions in the history).
/// `before` is true if something happens before `from`, and `after` is true if something happens after `last`.
#[derive(Drop)]
pub(crate) struct Drawing {
    pub columns: Vec<Column>,
    pub known: bool,
    pub from: u32,
    pub last: u32,
    pub before: bool,
    pub after: bool,
}

impl Drawing {
    /// Returns whether a call starts, takes effect or ends at a moment (a position in the history) that is not drawn.
    pub fn is_cut(&self) -> bool {
        self.before || self.after
    }

    /// Returns a range of moments (positions in the history) that shows why an order was rejected. The range starts at
    /// the call that the reason names. Returns `None` if the order is accepted, if the history has no such call, if
    /// nothing happens after the drawn moments, or if `window` excludes some moments.
    pub fn window_of_clash(&self, picture: &Picture, window: Window) -> Option<Window> {
        if !(self.after && window.is_whole()) {
            return None;
        }
        let from = clash_begins(picture)?;
        Some(Window { from, ..window })
    }

    /// Returns whether a range is before, among or after the drawn moments (positions in the history). The range is
    /// from `first` to `last`, and has no end if `last` is `None`.
    pub fn side_of(&self, first: u32, last: Option<u32>) -> Side {
        match last {
            _ if self.last < first => Side::After,
            Some(last) if last < self.from => Side::Before,
            _ => Side::Within,
        }
    }

    /// Returns whether a call's bar is before, among or after the drawn moments (positions in the history).
    pub fn side_of_bar(&self, made: CallRecord) -> Side {
        match made.ended {
            Some((end, _)) => self.side_of(made.begun, Some(end)),
            None => self.side_of(made.begun, None),
        }
    }
}

fn add_begun(marks: &mut Vec<Mark>, picture: &Picture, moment: u32) -> Result<(), AllocError> {
    for made in picture.history.calls() {
        if made.begun == moment {
            let sign = Sign::Begin(made.call);
            let thread = made.thread;
            marks.push(Mark { thread, sign })?;
        }
    }
    Ok(())
}

/// Adds a sign for each linearization point at `moment` (a position in the history). Returns whether a call changes the
/// set at `moment`.
fn add_points(marks: &mut Vec<Mark>, picture: &Picture, moment: u32) -> Result<bool, AllocError> {
    let mut changes = false;
    for (index, point) in points_of(picture).iter().enumerate() {
        if point.moment != moment {
            continue;
        }
        let Some(standing) = standing_at(picture, index) else {
            break;
        };
        if let Some(made) = standing.made {
            let sign = if point.change {
                Sign::Change
            } else {
                Sign::Fit
            };
            let thread = made.thread;
            marks.push(Mark { thread, sign })?;
            changes = changes || point.change;
        }
    }
    Ok(changes)
}

fn add_ended(marks: &mut Vec<Mark>, picture: &Picture, moment: u32) -> Result<(), AllocError> {
    for made in picture.history.calls() {
        if let Some((end, reply)) = made.ended {
            if end == moment {
                let sign = Sign::End(reply);
                let thread = made.thread;
                marks.push(Mark { thread, sign })?;
            }
        }
    }
    Ok(())
}

/// Appends the operation and the key of a call, such as `add 5`.
pub(crate) fn put_call(out: &mut String, call: Call) -> Result<(), AllocError> {
    let word = call_word(call);
    let key = call.key().0;
    write!(out, "{word} {key}")
}

/// Appends a sign: `[add 5-` for a start, `*-` for a call that takes effect and changes the set, `o-` for a call that
/// takes effect without a change, and `true] ` or `false] ` for an end. The call's bar continues with `-` until the end.
fn put_sign(out: &mut String, sign: Sign) -> Result<(), AllocError> {
    match sign {
        Sign::Begin(call) => {
            out.push_str("[")?;
            put_call(out, call)?;
            out.push_str("-")
        }
        Sign::Change => out.push_str("*-"),
        Sign::Fit => out.push_str("o-"),
        Sign::End(reply) => {
            let word = reply_word(reply);
            write!(out, "{word}] ")
        }
    }
}

/// Appends all signs of one thread in a column, such as `[add 5-*-`.
pub(crate) fn put_signs(out: &mut String, marks: &[Mark], thread: u32) -> Result<(), AllocError> {
    for mark in marks {
        if mark.thread == thread {
            put_sign(out, mark.sign)?;
        }
    }
    Ok(())
}

/// Returns the width of a column in characters: enough for the moment, the set, and the signs of each thread, but at
/// most `MOST_WIDTH`.
fn width_of(alloc: Global, moment: u32, marks: &[Mark], set: &str) -> Result<usize, AllocError> {
    let mut most = format!(in alloc; "{moment} ")?.len();
    if set.len() >= most {
        most = set.len() + 1;
    }
    for mark in marks {
        let mut signs = String::new(alloc);
        put_signs(&mut signs, marks, mark.thread)?;
        most = most.max(signs.len());
    }
    Ok(most.min(MOST_WIDTH))
}

/// Computes one column for each moment (position in the history) in `moments`. If all linearization points are known,
/// the first column and each column with a change contain the set.
fn columns_at(
    alloc: Global,
    picture: &Picture,
    moments: &[u32],
) -> Result<Vec<Column>, AllocError> {
    let known = are_known(picture);
    let mut reached = reached_at_first(alloc, picture)?;
    let mut columns = Vec::new(alloc);
    for moment in moments {
        let moment = *moment;
        let mut marks = Vec::new(alloc);
        add_begun(&mut marks, picture, moment)?;
        let changes = add_points(&mut marks, picture, moment)?;
        add_ended(&mut marks, picture, moment)?;
        let mut set = String::new(alloc);
        if known && (columns.is_empty() || changes) {
            go_on(&mut reached, picture, moment)?;
            set = set_text(alloc, &reached)?;
        }
        let width = width_of(alloc, moment, &marks, &set)?;
        columns.push(Column {
            moment,
            marks,
            set,
            width,
        })?;
    }
    Ok(columns)
}

/// Computes the columns of a picture for the moments (positions in the history) in `window`.
pub(crate) fn drawing_in(
    alloc: Global,
    picture: &Picture,
    window: Window,
) -> Result<Drawing, AllocError> {
    let moments = moments_shown(alloc, picture, window)?;
    let columns = columns_at(alloc, picture, &moments)?;
    let mut drawing = Drawing {
        columns,
        known: are_known(picture),
        from: window.from,
        last: window.to,
        before: matches!(next_moment(picture, 0), Some(moment) if moment < window.from),
        after: false,
    };
    end_at_last(picture, &mut drawing);
    Ok(drawing)
}

/// Sets `last` to the moment (position in the history) of the last column, and `after` to whether something happens
/// after that moment.
pub(crate) fn end_at_last(picture: &Picture, drawing: &mut Drawing) {
    if let Some(column) = drawing.columns.last() {
        drawing.last = column.moment;
    }
    drawing.after = next_moment(picture, u64::from(drawing.last) + 1).is_some();
}
