//! The vectors that the threads fill. All vectors are allocated before the first thread starts.
ghost use Rattle.std.specs.Prelude.{◌≡◌, ◌<◌, ◌≤◌, ◌^◌, [], IfSome, All, map, length, vec_capacity};

use crate::gate::Gate;
use crate::program_threads::Worker;
use lset_live::Running;
use lset_words::{Call, Reply};
use std::alloc::Global;

/// A program (a list of calls), and a vector with enough capacity for the replies.
#[derive(Drop)]
pub(crate) struct Program {
    pub calls: Vec<Call>,
    pub replies: Vec<Reply>,
    ghost empty: { replies.items ≡ [] },
    ghost room: { length calls.items ≤ vec_capacity replies },
    ghost short: { length calls.items < 2 ^ 32 },
}

/// The vectors that the threads fill, each with enough capacity: the programs with their replies, the handles of the
/// threads, and the vectors of replies.
#[derive(Drop)]
pub(crate) struct Room<M: Running, G: Gate> {
    pub programs: Vec<Program>,
    pub workers: Vec<Worker<M, G>>,
    pub replies: Vec<Vec<Reply>>,
    ghost no_workers: { workers.items ≡ [] },
    ghost worker_room: { length programs.items ≤ vec_capacity workers },
    ghost no_replies: { replies.items ≡ [] },
    ghost reply_room: { length programs.items ≤ vec_capacity replies },
}

fn with_room(alloc: Global, programs: Vec<Vec<Call>>) -> Option<Vec<Program>>
    requires { All (λ p. length p.items < 2 ^ 32) programs.items }
    ensures { IfSome result (λ v. map (λ p. p.calls) v.items ≡ programs.items) }
{
    let mut all = Vec::with_capacity(alloc, programs.len()).ok()?;
    for calls in programs {
        let replies = Vec::with_capacity(alloc, calls.len()).ok()?;
        let Ok(()) = all.push(Program { calls, replies }) else {
            return None;
        };
    }
    Some(all)
}

/// Allocates all vectors that the threads fill, and a vector for up to `keys` final keys. Returns `None` if an
/// allocation fails.
pub fn reserved<M: Running, G: Gate>(
    alloc: Global,
    programs: Vec<Vec<Call>>,
    keys: usize,
) -> Option<(Room<M, G>, Vec<u32>)>
    requires { All (λ p. length p.items < 2 ^ 32) programs.items }
    ensures programs { IfSome result (λ r. map (λ p. p.calls) r.0.programs.items ≡ programs.items) }
    ensures keys { IfSome result (λ r. (r.1.items ≡ []) × (keys ≤ vec_capacity r.1)) }
{
    let many = programs.len();
    let room = Room {
        programs: with_room(alloc, programs)?,
        workers: Vec::with_capacity(alloc, many).ok()?,
        replies: Vec::with_capacity(alloc, many).ok()?,
    };
    Some((room, Vec::with_capacity(alloc, keys).ok()?))
}
