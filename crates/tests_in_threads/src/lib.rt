//! Tests that use threads or sessions: sets in threads, programs in threads, sessions over readers and writers, and
//! servers on the loopback interface.
#![tactic(auto)]

/// Runs a check on each of the five lists.
macro_rules! at_each_list {
    ($check:ident, $rt:ident $(, $value:expr)*) => {
        $check::<lset_coarse::CoarseList, HostRuntime>(&$rt, $rt.alloc() $(, $value)*);
        $check::<lset_fine::FineList, HostRuntime>(&$rt, $rt.alloc() $(, $value)*);
        $check::<lset_optimistic::OptimisticList, HostRuntime>(&$rt, $rt.alloc() $(, $value)*);
        $check::<lset_lazy::LazyList, HostRuntime>(&$rt, $rt.alloc() $(, $value)*);
        $check::<lset_lock_free::LockFreeList, HostRuntime>(&$rt, $rt.alloc() $(, $value)*);
    };
}

#[cfg(test)]
mod bounded_rounds; // calls with a bound on their loops
#[cfg(test)]
mod buffered_sessions; // sessions with buffered answers
#[cfg(test)]
mod clients; // clients for tests of servers
#[cfg(test)]
mod limits; // the limit on lines of a session
#[cfg(test)]
mod meeting; // threads that wait for each other
#[cfg(test)]
mod opened; // operations on sets for many tests
#[cfg(test)]
mod pauses; // the steps that calls report
#[cfg(test)]
mod prelude; // imports of most tests
#[cfg(test)]
mod program_sizes; // programs of random sizes, with models
#[cfg(test)]
mod programs; // programs in threads, and gates
#[cfg(test)]
mod renewal; // sets that open with final keys
#[cfg(test)]
mod seats; // seats, receipts and closing
#[cfg(test)]
mod served_sessions; // servers on the loopback interface
#[cfg(test)]
mod session_devices; // readers and writers for sessions
#[cfg(test)]
mod session_faults; // sessions with a failing device
#[cfg(test)]
mod session_lines; // requests and answers of sessions
#[cfg(test)]
mod stepped; // lists run by their step tables
#[cfg(test)]
mod stopped; // calls that stop between two steps
#[cfg(test)]
mod typed_results; // results other than `Reply`
