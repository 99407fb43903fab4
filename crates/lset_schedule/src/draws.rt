ghost use Rattle.std.specs.Prelude.{◌≡◌, ◌<◌, map, IfOk, IfErr};
ghost use Rattle.lset_words.specs.Words.{key_of};
ghost use Rattle.lset_text.specs.Spellings.{HasCall};
ghost use Rattle.lset_schedule.specs.Draws.{chosen, drawn_call, drawn_calls, program_of, programs_of};
ghost use Rattle.lset_schedule.specs.Generating.{IsAccepted, Refuses};

use crate::gen_fault::GenFault;
use lset_text::Version;
use lset_words::{Call, Key, Layout, LayoutFault, layout};
use rand_core::{Rng, SeedableRng};
use rand_pcg::Pcg32;
use std::alloc::{AllocError, Global};

/// Returns the call that two random numbers select: `a` selects the kind (`add`, `remove` or `contains`), and `b`
/// selects the key, which is below `keys`.
#[tactic(auto, unfolding(crate::specs::Draws::chosen))]
fn chosen(keys: u32, a: u32, b: u32) -> Call
    requires { 0 < keys }
    ensures value { result ≡ chosen keys a b }
    ensures below { (key_of result).0 < keys }
    ensures first { HasCall Version.One result }
{
    let key = Key(b % keys);
    match a % 3 {
        0 => Call::Add(key),
        1 => Call::Remove(key),
        _ => Call::Contains(key),
    }
}

/// Draws a random call with a random key below `keys`.
#[tactic(auto, unfolding(crate::specs::Draws::drawn_call))]
pub(crate) fn draw_call<R: Rng>(keys: u32, rng: &mut R) -> Call
    requires { 0 < keys }
    ensures drawn { (result, R.stream rng.new) ≡ drawn_call keys (R.stream rng.old) }
    ensures below { (key_of result).0 < keys }
    ensures first { HasCall Version.One result }
{
    let a = rng.next_u32();
    let b = rng.next_u32();
    chosen(keys, a, b)
}

/// Draws `calls` random calls with random keys below `keys`.
fn draw_calls<R: Rng>(
    alloc: Global,
    calls: u32,
    keys: u32,
    rng: &mut R,
) -> Result<Vec<Call>, AllocError>
    requires { 0 < keys }
    ensures { IfOk result (λ v. (v.items, R.stream rng.new) ≡ drawn_calls keys calls (R.stream rng.old)) }
{
    let mut drawn = Vec::new(alloc);
    for _ in 0..calls {
        drawn.push(draw_call(keys, rng))?;
    }
    Ok(drawn)
}

#[tactic(auto, unfolding(crate::specs::Draws::program_of))]
fn program(
    alloc: Global,
    thread: u32,
    calls: u32,
    keys: u32,
    seed: u64,
) -> Result<Vec<Call>, AllocError>
    requires { 0 < keys }
    ensures { IfOk result (λ v. v.items ≡ program_of calls keys seed thread) }
{
    let mut rng = Pcg32::seed_from_u64(seed.wrapping_add(u64::from(thread)));
    draw_calls(alloc, calls, keys, &mut rng)
}

/// Checks the arguments of `generate`, and returns the layout (the sizes) of an initially empty set for them. The error
/// is the first that applies: `Threads`, `Quota` or `Keys`.
pub(crate) fn layout_to_draw(threads: u32, quota: u32, keys: u32) -> Result<Layout, GenFault>
    ensures sizes { IfOk result (λ l. l ≡ record { threads = threads; quota = quota; opening = 0 }) }
    ensures accepted { IfOk result (λ _. IsAccepted threads quota keys) }
    ensures refused { IfErr result (Refuses threads quota keys) }
{
    match layout(threads, quota) {
        Ok(_) if keys == 0 => Err(GenFault::Keys),
        Ok(layout) => Ok(layout),
        Err(LayoutFault::Threads) => Err(GenFault::Threads),
        Err(LayoutFault::Quota) => Err(GenFault::Quota),
        Err(LayoutFault::Opening) => unreachable!(),
    }
}

/// Draws a random program (list of calls) of `calls` calls for each of `threads` threads, 1 to 64. The same arguments
/// always return the same programs. Each thread has its own random generator, seeded with the wrapping sum of `seed`
/// and the thread's number. Two random numbers select each call: the first selects the kind, the second the key below
/// `keys`. Allocates.
///
/// # Errors
///
/// Returns the first error that applies: `Threads` if `threads` is out of range, `Keys` if `keys` is 0, `Memory` if an
/// allocation fails. Never returns `Quota`.
pub fn programs(
    alloc: Global,
    threads: u32,
    calls: u32,
    keys: u32,
    seed: u64,
) -> Result<Vec<Vec<Call>>, GenFault>
    ensures drawn { IfOk result (λ ps. map (λ p. p.items) ps.items ≡ programs_of threads calls keys seed) }
    ensures accepted { IfOk result (λ _. IsAccepted threads 0 keys) }
    ensures refused { IfErr result (Refuses threads 0 keys) }
{
    let _layout = layout_to_draw(threads, 0, keys)?;
    let mut all = Vec::new(alloc);
    for thread in 0..threads {
        all.push(program(alloc, thread, calls, keys, seed)?)?;
    }
    Ok(all)
}
