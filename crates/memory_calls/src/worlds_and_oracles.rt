use crate::prelude::*;
use lset_coarse::CoarseList;
use lset_history::{History, HistoryFault, Oracle};
use lset_steps::{Event, StepFault, World};
use lset_words::layout;

/// Adds a key, at most 5, in 15 steps of one thread. 15 steps are enough for the key 5. If the call ends earlier, each
/// remaining step returns `Idle`, which is ignored.
fn add(world: &mut World<CoarseList>, key: u32) -> Result<(), StepFault> {
    world.step(Event::Begin(0, Call::Add(Key(key))))?;
    for _ in 0..15 {
        let _told = world.step(Event::Go(0));
    }
    Ok(())
}

/// Runs five adds on the step table of a list and checks the keys of the list.
pub fn worlds(alloc: Global, calls: &mut Calls) -> Result<()> {
    let sizes = layout(1, 5)?;
    let mut world = answer!(calls, "World::new", AllocError, World::new(alloc, sizes))?;
    calls.announce(alloc, "World::step")?;
    for key in 1..=5 {
        add(&mut world, key)?;
    }
    let content = answer!(calls, "World::content", AllocError, world.content())?;
    check(content.as_slice() == [1, 2, 3, 4, 5].as_slice())
}

/// Checks that the sequential set contains exactly the keys `keys`.
fn oracle_has(alloc: Global, oracle: &Oracle, calls: &mut Calls, keys: &[u32]) -> Result<()> {
    calls.announce(alloc, "Oracle::keys")?;
    let found = answer!(calls, "Oracle::keys", AllocError, oracle.keys())?;
    check(found.as_slice() == keys)
}

/// Adds the keys 1 to 12, which do not fit into one node of the tree that stores the keys.
fn fill(oracle: &mut Oracle, calls: &mut Calls) -> Result<()> {
    for key in 1..=12 {
        let add = Call::Add(Key(key));
        let reply = answer!(calls, "Oracle::apply", AllocError, oracle.apply(0, add))?;
        check(reply == Reply::True)?;
    }
    Ok(())
}

const KEYS: [u32; 12] = [1, 2, 3, 4, 5, 6, 7, 8, 9, 10, 11, 12];

/// Adds keys to a sequential set, and creates another set with the same keys.
pub fn oracles(alloc: Global, calls: &mut Calls) -> Result<()> {
    let mut oracle = answer!(calls, "Oracle::new", AllocError, Oracle::new(alloc, 1, 12))?;
    fill(&mut oracle, calls)?;
    oracle_has(alloc, &oracle, calls, &KEYS)?;
    let opened = answer!(
        calls,
        "Oracle::opened",
        AllocError,
        Oracle::opened(alloc, 1, 0, &KEYS)
    )?;
    oracle_has(alloc, &opened, calls, &KEYS)
}

/// Records a `contains` that begins and ends, and returns false because the set is empty.
fn looks(alloc: Global, history: &mut History, calls: &mut Calls, number: u32) -> Result<()> {
    let (call, begun) = (Call::Contains(Key(number)), 2 * number + 1);
    let id = answer!(
        calls,
        "History::begin",
        HistoryFault::Memory,
        history.begin(0, call, begun)
    )?;
    calls.announce(alloc, "History::end")?;
    history.end(id, Reply::False, begun + 1)?;
    Ok(())
}

pub fn histories(alloc: Global, calls: &mut Calls) -> Result<()> {
    let mut history = History::new(alloc, 1, 0);
    for number in 0..5 {
        looks(alloc, &mut history, calls, number)?;
    }
    let have_ended = history.calls().iter().all(|call| call.ended.is_some());
    check(have_ended && history.calls().len() == 5)
}
