//! Runs a schedule event by event and reports the effect of each event.
ghost use Rattle.lset_words.specs.Words.{Opens};
ghost use Rattle.lset_schedule.specs.Plan.{opening_in, view};

use crate::events::LineEvent;
use crate::recorder::Recorder;
use crate::steps::Steps;
use crate::traced::{CallEnd, Deed, TracedEvent};
use lset_schedule::Schedule;
use lset_steps::{Action, ChainKey, Event, Local, Told};
use lset_text::Cause;
use std::alloc::{AllocError, Global};

fn thread_of(event: Event) -> u32 {
    match event {
        Event::Begin(thread, _) | Event::Go(thread) => thread,
    }
}

/// Returns whether the shared word with index `word` is the key or the link of a node.
fn is_node_word(word: u64) -> bool {
    word > 2 && word % 3 != 2
}

/// Returns whether an event writes the key or the link of a node. No other event can change which nodes are in the
/// list, or their marks.
fn writes_node(deed: Deed) -> bool {
    match deed {
        Deed::Begin(_) | Deed::Access(Action::Load(_), _) => false,
        Deed::Access(Action::Store(word, _), _) => is_node_word(word),
        Deed::Access(Action::Exchange(word, old, _), seen) => seen == old && is_node_word(word),
    }
}

/// A run of a schedule that reports the run's events one by one.
#[derive(Drop)]
pub struct TracedRun<W: Steps + Drop> {
    alloc: Global,
    world: W,
    recorder: Recorder,
    chain: Option<Vec<ChainKey>>,
}

impl<W: Steps + Drop> TracedRun<W> {
    /// Creates the run of a schedule. No event may have been executed in `world` before. If `chains` is true, each
    /// event that changes the nodes in the list or their marks is reported with the new list of nodes. Each event that
    /// writes the key or the link of a node then costs a walk along all nodes. Returns `AllocError` if an allocation
    /// fails.
    pub fn opened(
        alloc: Global,
        schedule: &Schedule,
        world: W,
        chains: bool,
    ) -> Result<TracedRun<W>, AllocError>
        requires { Opens (opening_in (view schedule.now)) }
    {
        let chain = if chains { Some(world.met()?) } else { None };
        Ok(TracedRun {
            alloc,
            world,
            recorder: Recorder::new(alloc, schedule)?,
            chain,
        })
    }

    /// Executes an event and returns its description for a trace. If the event is not enabled, the inner error states
    /// the cause. Returns `AllocError` if an allocation fails.
    pub fn make(&mut self, next: LineEvent) -> Result<Result<TracedEvent, Cause>, AllocError> {
        let ahead = self.look(next.event);
        let thread = thread_of(next.event);
        let open = self.recorder.open_number(thread);
        let told = match self.step(next.event) {
            Ok(told) => told,
            Err(Cause::Memory) => return Err(AllocError),
            Err(cause) => return Ok(Err(cause)),
        };
        let call = open.or(self.recorder.open_number(thread));
        let (Some((before, deed)), Some(after), Some(call)) = (ahead, self.world.held(thread), call)
        else {
            return Ok(Err(Cause::Lost));
        };
        let chain = self.changed_chain(deed)?;
        Ok(Ok(TracedEvent {
            line: next.line,
            moment: self.recorder.last,
            thread,
            call,
            change: told.change,
            end: self.end_of(call, told),
            deed,
            before,
            after,
            chain,
        }))
    }

    /// Executes an event and records it.
    fn step(&mut self, event: Event) -> Result<Told, Cause> {
        let told = self.world.make(event)?;
        self.recorder.follow(event, told)?;
        Ok(told)
    }

    /// Returns the private state of the event's thread before the event, and what the event will do. Returns `None` if
    /// the thread does not exist, or if the event is a step and the thread has no pending call.
    fn look(&self, event: Event) -> Option<(Local, Deed)> {
        let deed = match event {
            Event::Begin(_, call) => Deed::Begin(call),
            Event::Go(thread) => {
                let (action, seen) = self.world.ahead(thread)?;
                Deed::Access(action, seen)
            }
        };
        Some((self.world.held(thread_of(event))?, deed))
    }

    /// Returns the reply of a call, and the moment (event number) when the call takes effect. Returns `None` if the
    /// last event did not end the call.
    fn end_of(&self, call: u32, told: Told) -> Option<CallEnd> {
        Some(CallEnd {
            reply: told.answer?,
            moment: self.recorder.moment_of(call)?,
        })
    }

    /// Returns the nodes of the list from head to tail after an event. Returns `None` if no lists of nodes were
    /// requested, or if the nodes have not changed since they were last returned.
    fn changed_chain(&mut self, deed: Deed) -> Result<Option<Vec<ChainKey>>, AllocError> {
        let Some(told) = &mut self.chain else {
            return Ok(None);
        };
        if !writes_node(deed) {
            return Ok(None);
        }
        let chain = self.world.met()?;
        if *told == chain {
            return Ok(None);
        }
        *told = chain.iter().copied().collect(self.alloc)?;
        Ok(Some(chain))
    }
}
