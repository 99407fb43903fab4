ghost use Rattle.std.specs.Prelude.{◌≡◌, ℕ, ◌<◌, ◌≤◌, ◌↔◌, IsTrue, IfOk, IfErr, MatchOption, length};
ghost use Rattle.lset_steps.specs.Steps.{Enabled, after};
ghost use Rattle.lset_schedule.specs.Drawing.{line_of_event, left_after, event_drawn, before_turns, IsOver, AreDrawn, AreOfSeed};
ghost use Rattle.lset_schedule.specs.Generating.{IsAccepted, IsGenerated, Refuses};
ghost use Rattle.lset_schedule.specs.Plan.{IsSchedule, view};
ghost use Rattle.lset_schedule.specs.GeneratorTurns.{HasOpenCall, IsIdle, IsNextEvent};

use crate::draws::{draw_call, layout_to_draw};
use crate::gen_fault::GenFault;
use crate::value::{Line, Schedule};
use crate::{MOST_GENERATED, MOST_TURNS};
use lset_steps::{Event, Machine, World};
use lset_text::{Header, Version};
use lset_words::Layout;
use rand_core::{Rng, SeedableRng};
use rand_pcg::Pcg32;
use std::alloc::{AllocError, Global};

/// Returns the schedule line that consists of the given event.
fn line_of(event: Event) -> Line
    ensures { result ≡ line_of_event event }
{
    match event {
        Event::Begin(thread, call) => Line::Begin(thread, call),
        Event::Go(thread) => Line::Go(thread, 1),
    }
}

/// Returns how many calls can still begin after `event`, if `left` calls could begin before `event`.
fn left_by(left: u32, event: Event) -> u32
    ensures { result ≡ left_after left event }
{
    match event {
        Event::Begin(_, _) => left.saturating_sub(1),
        Event::Go(_) => left,
    }
}

/// Returns whether any of the threads 0 to `threads` - 1 has a pending call.
fn has_open_call<M: Machine>(world: &World<M>, threads: u32) -> bool
    requires { world.now.sizes.threads ≡ threads }
    ensures { IsTrue result ↔ ((t : ℕ) × (t < threads) × HasOpenCall world.now.state t) }
{
    for thread in 0..threads {
        if world.busy(thread) {
            return true;
        }
    }
    false
}

/// Returns whether the generator is finished after `events` events: either the maximum number of events is reached, or
/// no call is pending and no further call can begin.
fn is_over<M: Machine>(world: &World<M>, threads: u32, events: usize, left: u32) -> bool
    requires threads { world.now.sizes.threads ≡ threads }
    requires locals { length world.now.state.locals ≡ threads }
    ensures { IsTrue result ↔ IsOver world.now.state events left }
{
    if events == MOST_GENERATED as usize {
        return true;
    }
    left == 0 && !has_open_call(world, threads)
}

/// Returns the next event of `thread`, which was selected at random: a step if the thread has a pending call, otherwise
/// the start of a random call. Returns `None` if the thread has no pending call and `left`, the number of calls that
/// can still begin, is 0.
fn next_event<M: Machine, R: Rng>(
    world: &World<M>,
    thread: u32,
    left: u32,
    keys: u32,
    rng: &mut R,
) -> Option<Event>
    requires thread { thread < world.now.sizes.threads }
    requires keys { 0 < keys }
    ensures drawn { (result, R.stream rng.new) ≡ event_drawn world.now.state thread left keys (R.stream rng.old) }
    ensures event { MatchOption result (IsIdle world.now.state thread left) (IsNextEvent world.now.state thread left keys) }
{
    if world.busy(thread) {
        return Some(Event::Go(thread));
    }
    if left == 0 {
        return None;
    }
    Some(Event::Begin(thread, draw_call(keys, rng)))
}

/// Executes one event on the list.
fn make<M: Machine>(world: &mut World<M>, event: Event)
    requires enabled { Enabled world.old.state event }
    requires threads { length world.old.state.locals ≡ world.old.sizes.threads }
    ensures { world.new ≡ record world.old { state = after M.table world.old.state event } }
{
    let _told = world.step(event).unwrap();
}

/// Draws the lines of a random schedule, one event on each line. Selects a thread at random at most `MOST_TURNS` times,
/// and draws at most one event of the thread each time.
fn generated_lines<M: Machine, R: Rng>(
    alloc: Global,
    layout: Layout,
    calls: u32,
    keys: u32,
    rng: &mut R,
) -> Result<Vec<Line>, AllocError>
    requires keys { 0 < keys }
    requires empty { layout.opening ≡ 0 }
    ensures made { IfOk result (λ v. IsGenerated M.table layout.threads layout.quota calls keys v.items) }
    ensures few { IfOk result (λ v. length v.items ≤ MOST_GENERATED) }
    ensures drawn { IfOk result (λ v. AreDrawn M.table layout.threads keys MOST_TURNS
        (before_turns layout.threads layout.quota calls (R.stream rng.old)) v.items) }
{
    let threads = layout.threads();
    let mut world: World<M> = World::new(alloc, layout)?;
    let mut lines = Vec::new(alloc);
    let mut left = calls;
    for _ in 0..MOST_TURNS {
        if is_over(&world, threads, lines.len(), left) {
            break;
        }
        let thread = rng.next_u32() % threads;
        if let Some(event) = next_event(&world, thread, left, keys, rng) {
            make(&mut world, event);
            lines.push(line_of(event))?;
            left = left_by(left, event);
        }
    }
    Ok(lines)
}

/// Draws a random schedule of at most 10,000 events, one on each line. The same arguments always return the same
/// schedule. The schedule is for the list `M` and has version 1, and `replay` accepts each of its events.
///
/// `threads` must be 1 to 64, `quota` (the maximum number of successful adds per thread) 0 to 16,384, and `keys` at
/// least 1. All random numbers come from one generator, seeded with `seed`. The schedule is drawn in at most 100,000
/// turns. Each turn draws a thread. If the thread has a pending call, the call takes a step. Otherwise, if fewer than
/// `calls` calls have begun, the thread begins a call, and two more random numbers select the kind of the call and its
/// key below `keys`. The schedule ends when no call is pending and no more calls can begin. Allocates.
///
/// # Errors
///
/// Returns the first error that applies: `Threads` or `Quota` if that argument is out of range, `Keys` if `keys` is 0,
/// `Memory` if an allocation fails.
pub fn generate<M: Machine>(
    alloc: Global,
    threads: u32,
    quota: u32,
    calls: u32,
    keys: u32,
    seed: u64,
) -> Result<Schedule, GenFault>
    ensures version { IfOk result (λ s. s.version ≡ Version.One) }
    ensures kind { IfOk result (λ s. s.kind ≡ M.KIND) }
    ensures sizes { IfOk result (λ s. (s.threads ≡ threads) × (s.quota ≡ quota)) }
    ensures schedule { IfOk result (λ s. IsSchedule (view s)) }
    ensures generated { IfOk result (λ s. IsGenerated M.table threads quota calls keys s.lines.items) }
    ensures drawn { IfOk result (λ s. AreOfSeed M.table threads quota calls keys seed s.lines.items) }
    ensures accepted { IfOk result (λ _. IsAccepted threads quota keys) }
    ensures refused { IfErr result (Refuses threads quota keys) }
{
    let layout = layout_to_draw(threads, quota, keys)?;
    let mut rng = Pcg32::seed_from_u64(seed);
    let lines = generated_lines::<M, Pcg32>(alloc, layout, calls, keys, &mut rng)?;
    let header = Header {
        kind: M::KIND,
        threads,
        quota,
    };
    Ok(Schedule::of_header(Version::One, header, Vec::new(alloc), lines))
}
