//! Draws the calls of a diagnosis as bars of text, one line for each call. Columns are ordered as the moments (times in
//! the recording), but not in proportion to them. Two bars have a column in common if their calls overlap in time.

use crate::diagnosis::{Diagnosis, Mark};
use crate::showing::MOST_AROUND;
use std::alloc::{AllocError, Global};
use tool_calls::{Made, NEVER, state_word};

/// If the bars need more columns than this, the moments to the right of the bars are not aligned, which keeps the lines
/// shorter.
const WIDTH: usize = 66;

/// A gap of more than this many moments (times in the recording) without a drawn call is marked by a line `...`, if the
/// picture has room.
const LONG: u64 = 100;

/// A call drawn as a bar such as `[add 5----true]`, with the name of the thread before the bar, and moments and a note
/// after it.
#[derive(Drop)]
struct Bar {
    call: Made,
    /// The name of the thread.
    name: String,
    /// The text at the begin of the bar: operation and key.
    head: String,
    /// The text at the end of the bar: the reply, or `..` if the call is pending.
    tail: String,
    /// The text to the right of the moments.
    note: String,
    /// The first column of the bar, counted from 0.
    from: usize,
    /// The last column of the bar.
    to: usize,
}

/// Returns the text to the right of the bar of `call`. Empty for a call without a mark.
fn note_of(alloc: Global, call: Made, mark: Mark) -> Result<String, AllocError> {
    let key = call.key;
    match mark {
        Mark::Nothing => Ok(String::new(alloc)),
        Mark::Expected(yes) => format!(in alloc; "   <-- expected {yes}"),
        Mark::Leaves(state) => {
            let state = state_word(state);
            format!(in alloc; "   key {key} is {state}")
        }
        Mark::Finds(state) => {
            let state = state_word(state);
            format!(in alloc; "   finds key {key} {state}")
        }
        Mark::Either => String::from_str(alloc, "   <-- one of two"),
        Mark::Suspected => String::from_str(alloc, "   <-- suspected"),
    }
}

impl Bar {
    /// Creates the bar of a call. The columns are set later, by `place_all`.
    fn new(alloc: Global, call: Made, mark: Mark) -> Result<Bar, AllocError> {
        let (word, key, thread) = (call.operation.word(), call.key, call.thread);
        let tail = match call.reply {
            Some(yes) => format!(in alloc; "{yes}]")?,
            None => String::from_str(alloc, "..")?,
        };
        Ok(Bar {
            call,
            name: format!(in alloc; "thread {thread}")?,
            head: format!(in alloc; "[{word} {key}")?,
            tail,
            note: note_of(alloc, call, mark)?,
            from: 0,
            to: 0,
        })
    }

    /// Returns the smallest last column such that both texts of the bar and one dash between them fit.
    fn least_end(&self) -> usize {
        let width = self.head.len().saturating_add(self.tail.len());
        self.from.saturating_add(width)
    }

    /// Writes the line of the bar: the thread in `names` columns, the bar in `width` columns (0 if bars are not
    /// aligned), the moments at which the call began and ended, and the note.
    fn put(&self, out: &mut String, names: usize, width: usize) -> Result<(), AllocError> {
        let (name, head, tail) = (&self.name, &self.head, &self.tail);
        let (from, note, begun) = (self.from, &self.note, self.call.begun);
        let dashes = self.to.saturating_add(1).saturating_sub(self.least_end());
        write!(out, "{name:<names$} {:from$}", "")?;
        write!(out, "{head}{:-<dashes$}{tail}", "")?;
        let used = from.saturating_add(head.len()).saturating_add(tail.len());
        let room = width.saturating_sub(used.saturating_add(dashes));
        write!(out, "{:room$}", "")?;
        if self.call.ended == NEVER {
            writeln!(out, "  {begun} to ..{note}")
        } else {
            let ended = self.call.ended;
            writeln!(out, "  {begun} to {ended}{note}")
        }
    }
}

/// Sets the columns of all bars that begin or end at `moment`: the column `first`, or a later one if a bar that ends
/// needs more columns for its texts. Returns the next free column.
fn place_moment(bars: &mut [Bar], moment: u64, first: usize) -> usize {
    let mut column = first;
    for bar in &*bars {
        if bar.call.ended == moment {
            column = column.max(bar.least_end());
        }
    }
    for bar in bars {
        if bar.call.begun == moment {
            bar.from = column;
        }
        if bar.call.ended == moment {
            bar.to = column;
        }
    }
    column.saturating_add(1)
}

/// Sets the first and last columns of all bars.
fn place_all(alloc: Global, bars: &mut [Bar]) -> Result<(), AllocError> {
    let mut moments = Vec::new(alloc);
    for bar in &*bars {
        moments.push(bar.call.begun)?;
        moments.push(bar.call.ended)?;
    }
    moments.sort_unstable();
    moments.dedup();
    let mut column = 0;
    for moment in &moments {
        column = place_moment(bars, *moment, column);
    }
    Ok(())
}

/// The names of threads have at least this many columns, so that usual pictures are aligned alike.
const LEAST_NAMES: usize = 10;

/// Returns the number of columns for the names of threads: the longest name, but at least `LEAST_NAMES`.
fn names_of(bars: &[Bar]) -> usize {
    let mut names = LEAST_NAMES;
    for bar in bars {
        names = names.max(bar.name.len());
    }
    names
}

/// Returns the number of columns that the bars need.
fn width_of(bars: &[Bar]) -> usize {
    let mut width = 0;
    for bar in bars {
        let end = bar.to.saturating_add(1).max(bar.least_end());
        width = width.max(end);
    }
    width
}

/// Returns `true` if `call` follows a gap: calls that began earlier are drawn, and all of them ended more than `LONG`
/// moments before `call` began.
fn is_after_gap(bars: &[Bar], call: Made) -> bool {
    let mut last = 0;
    for bar in bars {
        if bar.call.begun < call.begun {
            last = last.max(bar.call.ended);
        }
    }
    last > 0 && call.begun > last.saturating_add(LONG)
}

/// Writes the line above the changes of other keys (adds and removes that returned true): `shown` are drawn, and `all`
/// could be. The line has both numbers if they differ. From `MOST_AROUND` on, `all` is not exact, and the line says
/// `many`.
fn put_rule(out: &mut String, shown: usize, all: usize) -> Result<(), AllocError> {
    if all >= MOST_AROUND {
        writeln!(
            out,
            "---------- also running: {shown} of many changes of other keys"
        )
    } else if shown < all {
        writeln!(
            out,
            "---------- also running: {shown} of {all} changes of other keys"
        )
    } else {
        out.push_str("---------- also running\n")
    }
}

/// Returns how many of the first `own` bars, which are the calls on the key, follow a gap (more than `LONG` moments
/// without a drawn call).
fn count_gaps(bars: &[Bar], own: usize) -> usize {
    let mut count = 0usize;
    for bar in bars.get(..own).unwrap_or(&[]) {
        if is_after_gap(bars, bar.call) {
            count = count.saturating_add(1);
        }
    }
    count
}

/// Appends the picture of a diagnosis to `out`: a line for each call on the key, then the changes of other keys that
/// fit. The picture has at most `most` lines, unless the calls on the key alone need more. Gaps are marked only if
/// their lines fit. Allocates.
pub fn put_picture(
    alloc: Global,
    out: &mut String,
    diagnosis: &Diagnosis,
    most: usize,
) -> Result<(), AllocError> {
    let mut bars = Vec::new(alloc);
    for one in &diagnosis.shown {
        bars.push(Bar::new(alloc, one.call, one.mark)?)?;
    }
    let own = bars.len();
    let room = most.saturating_sub(own.saturating_add(1));
    let mut beside = Vec::from_slice(alloc, &diagnosis.beside)?;
    beside.truncate(room);
    beside.sort_unstable_by_key(|call| call.begun);
    for call in &beside {
        let mark = if diagnosis.is_guilty(*call) {
            Mark::Suspected
        } else {
            Mark::Nothing
        };
        bars.push(Bar::new(alloc, *call, mark)?)?;
    }
    place_all(alloc, &mut bars)?;
    let (names, width) = (names_of(&bars), width_of(&bars));
    let rule = usize::from(!beside.is_empty());
    let lines = bars.len().saturating_add(count_gaps(&bars, own));
    let gaps = lines.saturating_add(rule) <= most;
    for (i, bar) in bars.iter().enumerate() {
        if i == own {
            put_rule(out, beside.len(), diagnosis.beside_count)?;
        }
        if gaps && i < own && is_after_gap(&bars, bar.call) {
            let from = names.saturating_add(bar.from);
            writeln!(out, " {:from$}...", "")?;
        }
        bar.put(out, names, if width > WIDTH { 0 } else { width })?;
    }
    Ok(())
}
