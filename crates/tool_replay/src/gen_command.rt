ghost use Rattle.std.specs.Prelude.{◌≡◌, map, string_bytes, MatchResult, Ok};
ghost use Rattle.lset_schedule.specs.Generating.{IsAccepted};
ghost use Rattle.lset_schedule.specs.Plan.{view};
ghost use Rattle.lset_lists.specs.Tables.{table_of};
ghost use Rattle.lset_schedule.specs.declared.gen_fault.GenFault.TheVariants.{Memory};
ghost use Rattle.tool_replay.specs.GenAnswers.{Answers, Generates, IsRequested};
ghost use Rattle.tool_base.specs.Tools.{Ends};
ghost use Rattle.tool_base.specs.Tools as tools;

use lset_lists::{List, Task, on_list};
use lset_schedule::{GenFault, Schedule, generate, write_schedule};
use std::alloc::Global;
use std::io::Write;
use tool_base::{Answer, RandomRequest, Trouble, deliver, read_random_request};

/// A task that generates a random schedule. `on_list` runs the task on the list of the requested kind.
#[derive(Clone, Copy)]
struct Generating {
    alloc: Global,
    request: RandomRequest,
}

impl Task for Generating {
    type Out = Result<Schedule, GenFault>;

    ghost may = { λ task kind. (kind ≡ task.request.kind)
        × IsAccepted task.request.threads task.request.quota task.request.keys };

    ghost done = { λ task table result. MatchResult result (λ s. IsRequested table task.request (view s)) (λ fault. fault ≡ Memory) };

    fn run<M: List>(self) -> Result<Schedule, GenFault> {
        let RandomRequest {
            threads,
            quota,
            calls,
            keys,
            seed,
            ..
        } = self.request;
        generate::<M>(self.alloc, threads, quota, calls, keys, seed)
    }
}

/// Generates a random schedule for the kind of list in the request.
fn schedule_for(alloc: Global, request: RandomRequest) -> Result<Schedule, GenFault>
    requires { IsAccepted request.threads request.quota request.keys }
    ensures { MatchResult result (λ s. IsRequested (table_of request.kind) request (view s)) (λ fault. fault ≡ Memory) }
{
    on_list(request.kind, Generating { alloc, request })
}

/// Returns the schedule that `gen` prints for `request`, with exit status 0. Returns `Memory` if an allocation fails.
pub fn generate_text(alloc: Global, request: RandomRequest) -> Result<Answer, Trouble>
    requires { IsAccepted request.threads request.quota request.keys }
    ensures { Answers (Ok request) (tools.view result) }
{
    let schedule = schedule_for(alloc, request)?;
    let text = write_schedule(alloc, &schedule)?;
    Ok(Answer { text, status: 0 })
}

/// Reads the arguments of `gen` and returns the schedule that `gen` prints, with exit status 0. Returns `Bad` with the
/// first argument that is missing or wrong, and `Memory` if an allocation fails. Allocates.
pub fn generate_for(alloc: Global, values: &[String]) -> Result<Answer, Trouble>
    ensures { Generates (map string_bytes values.now) (tools.view result) }
{
    let request = read_random_request(values)?;
    generate_text(alloc, request)
}

/// Implements the command `gen`: writes a random schedule of version 1 to `output`, and returns the exit status.
///
/// `values` are the command's arguments, as `read_random_request` reads them. The schedule has at most 10,000 events,
/// so it can begin fewer calls than requested. The exit status is 0 if the schedule was written. Otherwise an error
/// message of one line is written to `faults`, if possible. If an argument is missing or wrong, the exit status is 2,
/// and the message names the first missing or wrong argument. The exit status is 3 if an allocation failed, and 1 for
/// any other error. Allocates.
pub fn tool_gen<W: Write, F: Write>(
    alloc: Global,
    values: &[String],
    output: &mut W,
    faults: &mut F,
) -> u8
    ensures { Ends (Generates (map string_bytes values.now))
        (W.contents output.old) (W.contents output.new) (F.contents faults.old) (F.contents faults.new) result }
{
    let made = generate_for(alloc, values);
    deliver(made, output, faults)
}
