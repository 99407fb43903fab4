//! Writes the sentences of a diagnosis, except for the likely cause: the headline, and the facts below the picture.
//!
//! A *contradiction* is a few calls on one key that no order explains. A *change* is an add or remove that returned true.
//! An *answer* is a call that changed nothing. An operation *alone is wrong* if some order explains all calls except its
//! answers; `Odd` counts its wrong answers. Otherwise `Tally` counts the contradictions. A *split* is a period without a
//! change of a key, although some calls find the key present and others find it absent.

use lset_words::Presence;
use std::alloc::AllocError;
use tool_calls::{Made, NEVER, Operation, Place, Split, Symptom, other, state_word};
use tool_facts::{Meets, Odd, Tally};
use tool_guess::{Met, is_no_chance, put_ran, put_rate};
use tool_picture::Diagnosis;

/// Writes a line such as `contains(3) returned true, expected false`.
fn put_returned(out: &mut String, call: Made, expected: bool) -> Result<(), AllocError> {
    let (word, key) = (call.operation.word(), call.key);
    let yes = call.reply == Some(true);
    write!(out, "{word}({key}) returned {yes}")?;
    if expected {
        let other = !yes;
        write!(out, ", expected {other}")?;
    }
    out.push_str("\n")
}

/// Writes the headline for a call that contradicts other calls, if it is not known that its reply is the wrong one.
fn put_contradicted(out: &mut String, call: Made) -> Result<(), AllocError> {
    let (word, key, yes) = (call.operation.word(), call.key, call.reply == Some(true));
    writeln!(
        out,
        "{word}({key}) returned {yes}, which other calls of key {key} contradict"
    )
}

/// Writes the headline for a key that was lost or came back: it changed although no remove, or add, returned true.
fn put_gone(out: &mut String, diagnosis: &Diagnosis) -> Result<(), AllocError> {
    if let Some(call) = diagnosis.wrong {
        // The call returned false, although its operation makes the change to the state that contradicts.
        let operation = Operation::that_makes(other(diagnosis.was));
        if call.reply == Some(false) && call.operation == operation {
            return put_returned(out, call, true);
        }
    }
    let key = diagnosis.key;
    match diagnosis.was {
        Presence::Present => write!(out, "key {key} was lost: ")?,
        Presence::Absent => write!(out, "key {key} came back: ")?,
    }
    put_contradiction(out, diagnosis)
}

/// Writes the call, or the final state, that contradicts the other calls.
fn put_contradiction(out: &mut String, diagnosis: &Diagnosis) -> Result<(), AllocError> {
    match (diagnosis.wrong, diagnosis.second) {
        (Some(call), _) => put_returned(out, call, true),
        (None, Some(call)) => put_returned(out, call, false),
        (None, None) if diagnosis.until < NEVER => {
            let key = diagnosis.key;
            writeln!(out, "the calls of key {key} have no order")
        }
        (None, None) => {
            let (key, state) = (diagnosis.key, state_word(other(diagnosis.was)));
            writeln!(out, "key {key} is {state} at the end")
        }
    }
}

/// Writes the headline for a split: no change of the key ran, but calls disagree about the key.
fn put_disagreement(out: &mut String, split: &Split) -> Result<(), AllocError> {
    let (key, adds, removes) = (split.key, split.adds, split.removes);
    let found = if split.contains.present > 0 {
        if adds > 0 {
            "add and contains find it present, remove"
        } else {
            "contains finds it present, remove"
        }
    } else if split.contains.absent == 0 {
        "add finds it present, remove"
    } else if removes > 0 {
        "add finds it present, remove and contains"
    } else {
        "add finds it present, contains"
    };
    writeln!(out, "calls of key {key} disagree: {found} absent")
}

/// Writes the headline.
pub(crate) fn put_headline(out: &mut String, diagnosis: &Diagnosis) -> Result<(), AllocError> {
    let key = diagnosis.key;
    if let Some(split) = diagnosis.evidence.split.filter(|split| split.is_long()) {
        return put_disagreement(out, &split);
    }
    match diagnosis.symptom {
        Symptom::BothTrue(operation) => {
            let word = operation.word();
            writeln!(
                out,
                "{word}({key}) returned true in two overlapping calls, expected in at most one"
            )
        }
        Symptom::Lost | Symptom::CameBack => put_gone(out, diagnosis),
        _ => match (diagnosis.wrong, diagnosis.second) {
            (None, Some(call)) => put_contradicted(out, call),
            _ => put_contradiction(out, diagnosis),
        },
    }
}

/// Returns the words for the answers of an operation.
fn answers_word(operation: Operation) -> &'static str {
    match operation {
        Operation::Add => "add that returned false",
        Operation::Remove => "remove that returned false",
        Operation::Contains => "contains",
    }
}

/// Writes that the opposite wrong answer `what` never occurred, if all wrong answers are known. Closes the parenthesis.
fn put_never(out: &mut String, odd: &Odd, what: &str) -> Result<(), AllocError> {
    if odd.is_exact {
        write!(out, ", and never {what}")?;
    }
    out.push_str(")")
}

/// Writes how many wrong answers found an absent key, and how many missed a present one.
fn put_ways(out: &mut String, odd: &Odd) -> Result<(), AllocError> {
    let (missed, found) = (odd.missed, odd.found);
    if missed > 0 && found > 0 {
        write!(
            out,
            " ({found} found an absent key, {missed} missed a present key)"
        )
    } else if found > 0 {
        out.push_str(" (found an absent key")?;
        put_never(out, odd, "missed a present key")
    } else {
        out.push_str(" (missed a present key")?;
        put_never(out, odd, "found an absent key")
    }
}

/// Writes which operation alone is wrong, and the number of its wrong answers.
fn put_odd(out: &mut String, odd: &Odd) -> Result<(), AllocError> {
    let word = answers_word(odd.operation);
    let (wrong, of) = (odd.wrong, odd.of);
    let least = if odd.is_exact { "" } else { "at least " };
    write!(
        out,
        "only {word} is wrong: {least}{wrong} of its {of} answers"
    )?;
    match odd.operation {
        Operation::Contains => put_ways(out, odd)?,
        Operation::Add => out.push_str(" (the key was absent)")?,
        Operation::Remove => out.push_str(" (the key was present)")?,
    }
    if odd.puts_left_aside {
        out.push_str("; the final keys are ignored")?;
    }
    out.push_str("\n")
}

/// Writes how many contradictions of each kind there are. These numbers add up to the number of contradictions.
fn put_kinds(out: &mut String, tally: &Tally) -> Result<(), AllocError> {
    let kinds = [
        (tally.lost, "where a key was lost"),
        (tally.came_back, "where a key came back"),
        (tally.both_adds, "with two adds that both returned true"),
        (
            tally.both_removes,
            "with two removes that both returned true",
        ),
        (
            tally.missed.saturating_add(tally.found),
            "with one wrong reply",
        ),
    ];
    let mut is_first = true;
    for (count, kind) in kinds {
        if count > 0 {
            out.push_str(if is_first { ": " } else { " + " })?;
            write!(out, "{count} {kind}")?;
            is_first = false;
        }
    }
    put_answers(out, tally)?;
    let others = tally.others;
    match others {
        0 => Ok(()),
        _ if others == tally.places => {
            write!(out, ": {others} where it is unclear which call is wrong")
        }
        _ => write!(out, " + {others} where it is unclear which call is wrong"),
    }
}

/// Writes in parentheses how many single wrong replies each operation gave. Writes nothing if no contradiction has a single
/// wrong reply.
fn put_answers(out: &mut String, tally: &Tally) -> Result<(), AllocError> {
    let (adds, removes) = (tally.refused_adds, tally.refused_removes);
    let kinds = [
        (adds, "add returned false"),
        (removes, "remove returned false"),
        (tally.found.saturating_sub(adds), "contains returned true"),
        (
            tally.missed.saturating_sub(removes),
            "contains returned false",
        ),
    ];
    let mut is_first = true;
    for (count, kind) in kinds {
        if count > 0 {
            out.push_str(if is_first { " (" } else { ", " })?;
            write!(out, "{kind}: {count}")?;
            is_first = false;
        }
    }
    out.push_str(if is_first { "" } else { ")" })
}

/// Returns the words for the kind of a contradiction in a list of all contradictions.
fn symptom_text(symptom: Symptom) -> &'static str {
    match symptom {
        Symptom::Missed(_) => "missed",
        Symptom::Found(_) => "found, though absent,",
        Symptom::BothTrue(Operation::Add) => "added twice",
        Symptom::BothTrue(_) => "removed twice",
        Symptom::Lost => "lost",
        Symptom::CameBack => "came back",
        Symptom::Unclear => "inconsistent",
    }
}

/// Writes a list of a few contradictions: the key, the kind and the time of each.
fn put_few(out: &mut String, few: &[Place]) -> Result<(), AllocError> {
    let mut mark = ":";
    for place in few {
        let (key, since, symptom) = (place.key, place.clash.begun(), symptom_text(place.symptom));
        write!(out, "{mark} key {key} {symptom} ")?;
        match (since, place.clash.until) {
            (0, NEVER) => out.push_str("by the end")?,
            (_, NEVER) => write!(out, "from {since} to the end")?,
            (_, until) => write!(out, "from {since} to {until}")?,
        }
        mark = ";";
    }
    out.push_str("\n")
}

/// A first contradiction is late if it ends at this moment or later.
const LATE: u64 = 200;

/// Returns whether the kind of most contradictions is unclear and the first one is late, as after an error that breaks the
/// set for good. The moment of the first contradiction is then worth a mention.
fn is_from_one_moment(diagnosis: &Diagnosis) -> bool {
    let tally = &diagnosis.evidence.tally;
    let moment = diagnosis.first_moment;
    let is_late = moment >= LATE && moment < NEVER;
    tally.others.saturating_mul(2) > tally.places && is_late
}

/// Writes the numbers of contradictions, of each kind of contradiction, of refused keys, and of successful adds and
/// removes that the next call did not see. Further contradictions can overlap those that are counted.
fn put_tally(out: &mut String, diagnosis: &Diagnosis) -> Result<(), AllocError> {
    let evidence = &diagnosis.evidence;
    let tally = &evidence.tally;
    if tally.places == 0 {
        return Ok(());
    }
    let (count, mark) = (tally.places, if tally.places == 1 { "" } else { "s" });
    if is_from_one_moment(diagnosis) {
        let moment = diagnosis.first_moment;
        write!(
            out,
            "before moment {moment} the calls had an order; from then on at least "
        )?;
    } else {
        out.push_str("at least ")?;
    }
    write!(out, "{count} contradiction{mark}")?;
    if !diagnosis.few.is_empty() {
        return put_few(out, &diagnosis.few);
    }
    put_kinds(out, tally)?;
    let (keys, all) = (tally.keys, evidence.keys);
    write!(out, "\n{keys} of {all} keys are affected")?;
    put_unseen_changes(out, tally)?;
    out.push_str("\n")
}

/// Returns whether the next call on the key often does not see a change: at least three changes, and at least one in
/// ten. (After rarer cases, the change itself can have had an effect that was undone later.)
fn is_often_unseen(unseen: u64, changes: u64) -> bool {
    unseen >= 3 && unseen.saturating_mul(10) >= changes
}

/// Writes how often the next call on the key did not see a successful add or remove, although no opposite change ran in
/// between. Writes nothing if the next call nearly always saw the change, or if not all affected keys were counted.
fn put_unseen_changes(out: &mut String, tally: &Tally) -> Result<(), AllocError> {
    let (adds, removes) = (tally.followed_adds, tally.followed_removes);
    let (lost, kept) = (tally.unseen_adds, tally.unseen_removes);
    if tally.has_all_keys() && is_often_unseen(lost, adds) {
        write!(
            out,
            "; the next call often does not see an add: after {lost} of {adds} successful adds it found the key absent, with no remove in between"
        )?;
    }
    if tally.has_all_keys() && is_often_unseen(kept, removes) {
        write!(
            out,
            "; the next call often does not see a remove: after {kept} of {removes} successful removes it found the key present, with no add in between"
        )?;
    }
    Ok(())
}

/// Writes how many calls of each operation found the key of a split present or absent.
fn put_split(out: &mut String, split: &Split) -> Result<(), AllocError> {
    let (key, since) = (split.key, split.since);
    let (adds, removes) = (split.adds, split.removes);
    let (votes, state) = if split.contains.present > 0 {
        (split.contains.present, "present")
    } else {
        (split.contains.absent, "absent")
    };
    write!(out, "from {since} ")?;
    if split.until < NEVER {
        write!(out, "to {}", split.until)?;
    } else {
        out.push_str("on")?;
    }
    write!(
        out,
        " no change of key {key} ran, and {adds} add found it present, "
    )?;
    writeln!(out, "{removes} remove absent, {votes} contains {state}")
}

/// Writes during how many contradictions no two calls overlapped, if these are at least 10 percent. Writes nothing if the
/// kind of most contradictions is unclear, since after one early error many later calls disagree.
fn put_apart(out: &mut String, tally: &Tally) -> Result<(), AllocError> {
    let (apart, places, others) = (tally.apart, tally.places, tally.others);
    let is_few = apart == 0 || apart.saturating_mul(10) < places;
    if is_few || others.saturating_mul(100) >= places.saturating_mul(65) {
        return Ok(());
    }
    writeln!(
        out,
        "during {apart} of {places} contradictions no two calls overlapped: perhaps one thread alone is enough"
    )
}

/// Writes what ran during most of the changes that contradictions undo or report twice, if it runs clearly less often
/// during other changes. Writes nothing otherwise.
fn put_meets(out: &mut String, meets: &Meets) -> Result<(), AllocError> {
    for met in [Met::FirstCalls, Met::OwnKey, Met::OtherKeys] {
        if met.is_clear(meets) {
            met.put_conclusion(out)?;
            return met.put(out, meets);
        }
    }
    Ok(())
}

/// Returns whether `count` of `of` wrong answers is a percentage at least 25 larger than `usual`, the percentage of other
/// answers.
fn is_more(count: u64, of: u64, usual: u64) -> bool {
    let least = usual.saturating_add(25);
    count >= 2 && count.saturating_mul(100) >= of.saturating_mul(least)
}

/// Writes which changes ran during the only wrong answer, whether the picture shows those of its key, and whether the next
/// call of the operation on the key was right.
fn put_around_one(out: &mut String, diagnosis: &Diagnosis, odd: &Odd) -> Result<(), AllocError> {
    let word = odd.operation.word();
    if odd.same > 0 {
        let other = match (odd.same_adds, odd.same_removes) {
            (0, _) => "a remove",
            (_, 0) => "an add",
            _ => "an add and a remove",
        };
        let place = if diagnosis.draws_writer() {
            ""
        } else {
            " (not in the picture)"
        };
        writeln!(out, "{other} of the key ran during it{place}")?;
    } else if odd.active > 0 {
        out.push_str(
            "a change of another key ran during it, and no other add or remove of its own key\n",
        )?;
    }
    if odd.then_right > 0 {
        writeln!(
            out,
            "with no change in between, the next {word} of the key was right"
        )?;
    }
    Ok(())
}

/// Writes which kind of change ran clearly more often during the wrong answers than during other answers or, without
/// such a kind, that no change ran during most wrong answers. Writes nothing if neither is true, or if there are so few
/// wrong answers that it can be chance.
fn put_meanwhile(out: &mut String, odd: &Odd) -> Result<(), AllocError> {
    let (same, active, wrong) = (odd.same, odd.active, odd.wrong);
    let (alone, none) = (active.saturating_sub(same), wrong.saturating_sub(active));
    let (usually_same, usually) = (odd.usually_same, odd.usually_active);
    let usually_alone = usually.saturating_sub(usually_same);
    if is_more(same, wrong, usually_same) && is_no_chance(odd, same, usually_same) {
        let what = "another add or remove of their key";
        put_ran(out, odd, what, same, usually_same)?;
    } else if is_more(alone, wrong, usually_alone) && is_no_chance(odd, alone, usually_alone) {
        put_ran(out, odd, "a change of another key", odd.beside, odd.usual)?;
        write!(
            out,
            "; during {alone} of these no other add or remove of their own key ran"
        )?;
    } else if is_more(active, wrong, usually) && is_no_chance(odd, active, usually) {
        let what = "another add or remove of their key, or a change of another key,";
        put_ran(out, odd, what, active, usually)?;
        let beside = odd.beside;
        write!(
            out,
            "; of their own key during {same}, of another key during {beside}"
        )?;
    } else if none.saturating_mul(2) > wrong && wrong >= FEW {
        write!(
            out,
            "during {none} of the {wrong} wrong answers no other add or remove of their key ran, and no change of another key"
        )?;
        put_rate(out, odd, none, 100u64.saturating_sub(usually))?;
    } else {
        return Ok(());
    }
    out.push_str("\n")
}

/// Fewer wrong answers than this are too few for a statement about most of them.
const FEW: u64 = 3;

/// Writes whether the next calls on the key were right or wrong after the wrong answers, if nearly all were right, or at
/// least half were wrong. Writes nothing if these are few, or if not all wrong answers are known.
fn put_next(out: &mut String, odd: &Odd) -> Result<(), AllocError> {
    let (right, wrong, word) = (odd.then_right, odd.then_wrong, odd.operation.word());
    let all = right.saturating_add(wrong);
    if !odd.is_exact || all < FEW {
        Ok(())
    } else if right.saturating_mul(10) >= all.saturating_mul(9) {
        writeln!(
            out,
            "the error passes: with no change in between, the next {word} of the key was right {right} of {all} times"
        )
    } else if wrong.saturating_mul(2) >= all {
        writeln!(
            out,
            "the error lasts: with no change in between, the next {word} of the key was wrong {wrong} of {all} times"
        )
    } else {
        Ok(())
    }
}

/// Writes which changes ran during the wrong answers, and whether the next calls of the operation on their keys were right.
fn put_around(out: &mut String, diagnosis: &Diagnosis, odd: &Odd) -> Result<(), AllocError> {
    if odd.wrong == 1 {
        return put_around_one(out, diagnosis, odd);
    }
    put_meanwhile(out, odd)?;
    put_unseen(out, odd)?;
    put_next(out, odd)
}

/// Writes which threads made the completed changes that the wrong answers contradict, and how long before the answers
/// these changes ended. Writes nothing if there are few such changes.
fn put_unseen(out: &mut String, odd: &Odd) -> Result<(), AllocError> {
    let (own, others, latest) = (odd.by_same, odd.by_others, odd.latest);
    let known = own.saturating_add(others);
    if known < FEW {
        return Ok(());
    }
    let some = known.min(odd.wrong);
    if some < odd.wrong {
        write!(out, "{some} of them")?;
    } else {
        out.push_str("they")?;
    }
    writeln!(
        out,
        " contradict changes that had ended at most {latest} moments earlier: {own} by the same thread, {others} by another thread"
    )
}

/// Writes a line if the headline and the picture show a contradiction that the verdict does not name.
pub(crate) fn put_first(out: &mut String, diagnosis: &Diagnosis) -> Result<(), AllocError> {
    if !diagnosis.is_example() {
        return Ok(());
    }
    let (key, moment) = (diagnosis.first_key, diagnosis.first_moment);
    if diagnosis.key == key && diagnosis.until > moment {
        writeln!(
            out,
            "(the picture shows a later contradiction of key {key} that is easier to see; the first ends at moment {moment})"
        )
    } else {
        out.push_str("(the picture shows another contradiction that is easier to see)\n")
    }
}

/// Writes the facts: how many replies or keys are wrong, and what ran at the same time. If there is no likely cause, also
/// writes facts that otherwise support a cause.
pub(crate) fn put_known(out: &mut String, diagnosis: &Diagnosis) -> Result<(), AllocError> {
    match &diagnosis.evidence.odd {
        Some(odd) => {
            put_odd(out, odd)?;
            put_around(out, diagnosis, odd)?;
        }
        None => put_tally(out, diagnosis)?,
    }
    if diagnosis.cause.is_none() {
        put_meets(out, &diagnosis.evidence.meets)?;
    }
    if let Some(split) = diagnosis.evidence.split.filter(|split| split.is_long()) {
        put_split(out, &split)?;
    } else if diagnosis.cause.is_none() {
        put_apart(out, &diagnosis.evidence.tally)?;
    }
    if diagnosis.evidence.is_part {
        let calls = diagnosis.evidence.calls;
        writeln!(out, "only the first {calls} calls were looked at")?;
    }
    Ok(())
}
