//! Reads the arguments of the commands `gen`, `run` and `serve`, and defines the limits of the arguments.

ghost use Rattle.std.specs.Prelude.{◌≡◌, ◌≤◌, ◌-◌, ◌^◌, IfOk, IfSome, map, string_bytes};
ghost use Rattle.lset_schedule.specs.Generating.{IsAccepted};
ghost use Rattle.tool_base.specs.Arguments.{kind_at, number_at, random_request_of};

use crate::trouble::ValueName;
use lset_text::{long_number, number, read_kind};
use lset_words::{Kind, MOST_QUOTA, MOST_THREADS};

/// The maximum value of the argument CALLS. In `gen`, CALLS counts the calls of all threads together; in `run`, the
/// calls of each thread.
pub const MOST_CALLS_ASKED: u32 = 10_000;

/// The maximum value of the argument LIVES of `run`, the number of rounds.
pub const MOST_LIVES: u32 = 100;

/// The maximum value of the argument SESSIONS of `serve`, the number of connections to accept.
pub const MOST_SESSIONS_ASKED: u32 = 10_000;

/// The largest port number.
pub const MOST_PORT: u32 = 65_535;

/// The arguments of the command `gen`, which are also the first six arguments of `run`: a kind of list, the numbers of
/// threads, calls and keys, a quota (successful adds per thread), and a random seed.
#[derive(Clone, Copy)]
pub struct RandomRequest {
    /// The kind of list.
    pub kind: Kind,
    /// The number of threads, 1 to `MOST_THREADS`.
    pub threads: u32,
    /// The quota: how many successful adds each thread can make, 0 to `MOST_QUOTA`.
    pub quota: u32,
    /// The number of calls, 0 to `MOST_CALLS_ASKED`.
    pub calls: u32,
    /// The number of keys from which the calls choose, at least 1. The keys are the numbers from 0 to `keys - 1`.
    pub keys: u32,
    /// The random seed; any number is allowed.
    pub seed: u64,
}

/// The arguments of the command `run`: the arguments of `gen` for the first round, and the number of rounds. In each
/// round, all threads make their calls on one set.
#[derive(Clone, Copy)]
pub struct LivesRequest {
    /// The arguments of the first round.
    pub run: RandomRequest,
    /// The number of rounds, 1 to `MOST_LIVES`.
    pub lives: u32,
}

/// The arguments of the command `serve`: a kind of list, the number of seats (per-thread handles to the set), the quota
/// (successful adds that each seat can make), a port, and the number of connections to accept.
#[derive(Clone, Copy)]
pub struct ServeRequest {
    /// The kind of list.
    pub kind: Kind,
    /// The number of seats (per-thread handles), 1 to `MOST_THREADS`.
    pub seats: u32,
    /// The quota: how many successful adds each seat (per-thread handle) can make, 0 to `MOST_QUOTA`.
    pub quota: u32,
    /// The port, 0 to `MOST_PORT`. If `port` is 0, the system chooses a port.
    pub port: u16,
    /// The number of connections to accept, 0 to `MOST_SESSIONS_ASKED`.
    pub sessions: u32,
}

/// Parses argument `index` (counted from 0) as the name of a list. Returns `None` if the argument is missing or is not
/// the name of a list.
fn kind_at(values: &[String], index: usize) -> Option<Kind>
    ensures { result ≡ kind_at (map string_bytes values.now) index }
{
    read_kind(values.get(index)?.as_bytes())
}

/// Parses argument `index` (counted from 0) as a decimal number from `low` to `high` without leading zeros. Returns
/// `None` if the argument is missing or is not a number of the described form.
fn number_at(values: &[String], index: usize, low: u32, high: u32) -> Option<u32>
    ensures value { result ≡ number_at (map string_bytes values.now) index low high }
    ensures range { IfSome result (λ n. (low ≤ n) × (n ≤ high)) }
{
    number(values.get(index)?.as_bytes(), low, high)
}

fn seed_at(values: &[String], index: usize) -> Option<u64>
    ensures { result ≡ number_at (map string_bytes values.now) index 0 (2 ^ 64 - 1) }
{
    long_number(values.get(index)?.as_bytes(), 0, u64::MAX)
}

/// Reads the arguments of `gen`, in this order: KIND, THREADS, QUOTA, CALLS, KEYS, SEED. `RandomRequest` documents the
/// ranges of the arguments. Numbers are decimals without leading zeros. Further arguments are ignored.
///
/// # Errors
///
/// Returns the first argument that is missing or wrong.
#[tactic(auto, unfolding(crate::specs::Arguments::random_request_of))]
pub fn read_random_request(values: &[String]) -> Result<RandomRequest, ValueName>
    ensures value { result ≡ random_request_of (map string_bytes values.now) }
    ensures known { IfOk result (λ request. IsAccepted request.threads request.quota request.keys) }
{
    let kind = kind_at(values, 0).ok_or(ValueName::Kind)?;
    let threads = number_at(values, 1, 1, MOST_THREADS).ok_or(ValueName::Threads)?;
    let quota = number_at(values, 2, 0, MOST_QUOTA).ok_or(ValueName::Quota)?;
    let calls = number_at(values, 3, 0, MOST_CALLS_ASKED).ok_or(ValueName::Calls)?;
    let keys = number_at(values, 4, 1, u32::MAX).ok_or(ValueName::Keys)?;
    let seed = seed_at(values, 5).ok_or(ValueName::Seed)?;
    Ok(RandomRequest {
        kind,
        threads,
        quota,
        calls,
        keys,
        seed,
    })
}

/// Parses argument 6 (counted from 0), the number of rounds, as a number from 1 to `MOST_LIVES`. Returns 1 if the
/// argument is missing, and `None` if it is wrong.
fn lives_in(values: &[String]) -> Option<u32> {
    match values.get(6) {
        Some(_) => number_at(values, 6, 1, MOST_LIVES),
        None => Some(1),
    }
}

/// Reads the arguments of `run`: the arguments that `read_random_request` reads, then LIVES, the number of rounds.
/// LIVES is a decimal from 1 to `MOST_LIVES` without leading zeros, by default 1. Further arguments are ignored.
///
/// # Errors
///
/// Returns the first argument that is wrong or, except for LIVES, missing.
pub fn read_lives_request(values: &[String]) -> Result<LivesRequest, ValueName> {
    let run = read_random_request(values)?;
    let lives = lives_in(values).ok_or(ValueName::Lives)?;
    Ok(LivesRequest { run, lives })
}

/// Reads the arguments of `serve`, in this order: KIND, SEATS, QUOTA, PORT, SESSIONS. `ServeRequest` documents the
/// ranges of the arguments. Numbers are decimals without leading zeros. Further arguments are ignored.
///
/// # Errors
///
/// Returns the first argument that is missing or wrong.
pub fn read_serve_request(values: &[String]) -> Result<ServeRequest, ValueName> {
    let kind = kind_at(values, 0).ok_or(ValueName::Kind)?;
    let seats = number_at(values, 1, 1, MOST_THREADS).ok_or(ValueName::Seats)?;
    let quota = number_at(values, 2, 0, MOST_QUOTA).ok_or(ValueName::Quota)?;
    let port = number_at(values, 3, 0, MOST_PORT)
        .and_then(|port| u16::try_from(port).ok())
        .ok_or(ValueName::Port)?;
    let sessions = number_at(values, 4, 0, MOST_SESSIONS_ASKED).ok_or(ValueName::Sessions)?;
    Ok(ServeRequest {
        kind,
        seats,
        quota,
        port,
        sessions,
    })
}
