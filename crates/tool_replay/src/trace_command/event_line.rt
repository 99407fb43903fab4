//! Appends the line of an event to a trace.
use crate::trace_command::chunks::{Chunk, put, put_number};
use crate::trace_command::table_words::{TableWord, put_key, put_name, put_node, put_value};
use lset_replay::{CallEnd, Deed, TracedEvent};
use lset_steps::{Action, Local};
use lset_text::call_word;
use lset_words::{Call, Key, Reply};

fn put_reply(out: &mut Chunk, reply: Reply) {
    match reply {
        Reply::True => put(out, "true"),
        Reply::False => put(out, "false"),
        Reply::Full => put(out, "full"),
        Reply::Nothing => put(out, "nothing"),
        Reply::At(key) => {
            put(out, "at-");
            put_number(out, u64::from(key.0));
        }
    }
}

/// Appends an access to a shared word, such as `exchange n2.link from tail to n3 saw tail`. `seen` is the value that a
/// load or an exchange found.
fn put_access(out: &mut Chunk, action: Action, seen: u64) {
    let (verb, index) = match action {
        Action::Load(index) => ("load ", index),
        Action::Store(index, _) => ("store ", index),
        Action::Exchange(index, _, _) => ("exchange ", index),
    };
    let word = TableWord::at(index);
    put(out, verb);
    put_name(out, word);
    match action {
        Action::Load(_) => {}
        Action::Store(_, value) => {
            put(out, " ");
            return put_value(out, word, value);
        }
        Action::Exchange(_, from, to) => {
            put(out, " from ");
            put_value(out, word, from);
            put(out, " to ");
            put_value(out, word, to);
        }
    }
    put(out, " saw ");
    put_value(out, word, seen);
}

/// Appends the name and the new value of a register (a private variable of a thread) that contains a node. Appends
/// nothing if the value did not change.
fn put_node_change(out: &mut Chunk, name: &str, before: u64, after: u64) {
    if before != after {
        put(out, name);
        put_node(out, after);
    }
}

/// Appends the name and the new value of a register (a private variable of a thread) that contains a key. Appends
/// nothing if the value did not change.
fn put_key_change(out: &mut Chunk, name: &str, before: u64, after: u64) {
    if before != after {
        put(out, name);
        put_key(out, after);
    }
}

/// Appends the name and the new value of each register (private variable) of a thread that the event changed.
fn put_changes(out: &mut Chunk, before: &Local, after: &Local) {
    put_node_change(out, " pred ", before.pred, after.pred);
    put_node_change(out, " curr ", before.curr, after.curr);
    put_node_change(out, " succ ", before.succ, after.succ);
    put_node_change(out, " node ", before.node, after.node);
    put_key_change(out, " pkey ", before.pkey, after.pkey);
    put_key_change(out, " ckey ", before.ckey, after.ckey);
    if before.used != after.used {
        put(out, " used ");
        put_number(out, u64::from(after.used));
    }
    if before.reply != after.reply {
        put(out, " reply ");
        match after.reply {
            Some(reply) => put_reply(out, reply),
            None => put(out, "none"),
        }
    }
}

/// Appends the number of a call that an event began or ended.
fn put_call(out: &mut Chunk, number: u32) {
    put(out, " call ");
    put_number(out, u64::from(number));
}

fn put_begin(out: &mut Chunk, call: Call, number: u32) {
    put(out, "begin ");
    put(out, call_word(call));
    put(out, " ");
    put_number(out, u64::from(call.key().0));
    put_call(out, number);
}

/// Appends what the event did, the row of the step table that the thread reached and, unless the event began a call,
/// the registers (private variables of the thread) that changed.
fn put_deed(out: &mut Chunk, event: &TracedEvent) {
    match event.deed {
        Deed::Begin(call) => put_begin(out, call, event.call),
        Deed::Access(action, seen) => put_access(out, action, seen),
    }
    put(out, " pc ");
    put_number(out, u64::from(event.after.pc));
    if let Deed::Access(_, _) = event.deed {
        put_changes(out, &event.before, &event.after);
    }
}

fn put_change(out: &mut Chunk, change: Option<(Key, bool)>) {
    if let Some((key, added)) = change {
        put(out, if added { " put " } else { " took " });
        put_number(out, u64::from(key.0));
    }
}

fn put_end(out: &mut Chunk, number: u32, end: CallEnd) {
    put(out, " answer ");
    put_reply(out, end.reply);
    put_call(out, number);
    put(out, " at ");
    put_number(out, u64::from(end.moment));
}

pub(crate) fn put_event(out: &mut Chunk, event: &TracedEvent) {
    put(out, "event ");
    put_number(out, u64::from(event.moment));
    put(out, " line ");
    put_number(out, event.line);
    put(out, " thread ");
    put_number(out, u64::from(event.thread));
    put(out, " ");
    put_deed(out, event);
    put_change(out, event.change);
    if let Some(end) = event.end {
        put_end(out, event.call, end);
    }
    put(out, "\n");
}
