//! Calls library functions that allocate, and compares their results with the expected results. If a call returns
//! `Memory` (or `Spawn`, if no thread could be created), makes the call again and prints the call's name at the end.
//! All later results must be as if no allocation had failed.
//!
//! If the program is run by hand, no allocation fails. `tests/failed_allocations.py` makes the allocation with a fixed
//! number fail. The program's input is the number of blocks that it allocates before its first call. With a different
//! number in each run, a different allocation of the calls fails in each run.
#![tactic(auto)]

/// Makes a call, and repeats the call once if it returns `Memory` for the first time in the run. Returns the result of
/// the last attempt.
macro_rules! answer {
    ($calls:ident, $name:expr, $memory:pat, $call:expr) => {{
        $calls.name = $name;
        match $call {
            Err($memory) if $calls.may_be_refused() => $call,
            answer => answer,
        }
    }};
}

mod live;
mod prelude;
mod refused_calls;
mod threads;
mod worlds_and_oracles;

use prelude::{AllocError, Calls, Global, Host, Net, Result, TcpListener, TcpStream};
use std::io::{self, Read};
use std::process::ExitCode;

fn make_calls<R: Host + Net<Listener = TcpListener, Stream = TcpStream>>(
    rt: &R,
    alloc: Global,
    calls: &mut Calls,
) -> Result<()> {
    worlds_and_oracles::worlds(alloc, calls)?;
    worlds_and_oracles::oracles(alloc, calls)?;
    worlds_and_oracles::histories(alloc, calls)?;
    live::running_sets(rt, alloc, calls)?;
    threads::programs_on_threads(rt, alloc, calls)?;
    threads::a_session(rt, alloc, calls)
}

/// Reads a number from standard input. Returns 0 if the input has no number.
fn number_on(input: &mut impl Read) -> io::Result<u32> {
    let mut buffer = [0; 16];
    let count = input.read(&mut buffer)?;
    let text = str::from_utf8(&buffer[..count]).unwrap_or_default();
    Ok(text.trim().parse().unwrap_or(0))
}

/// Allocates `count` blocks of memory, one after another, and frees each block before it allocates the next.
fn take_blocks(alloc: Global, count: u32) -> Result<(), AllocError> {
    for number in 0..count {
        let _block = Box::new(alloc, number)?;
    }
    Ok(())
}

/// Returns the two parts of the line that the program prints after all calls had the expected results. If a call
/// returned `Memory`, the line names the call. Otherwise allocates `blocks` blocks; if one of these allocations fails,
/// the line states that the allocation that fails comes after all calls.
fn told(alloc: Global, calls: &Calls, blocks: u32) -> (&'static str, &'static str) {
    match calls.refused {
        Some(name) => (name, " asked for memory"),
        None if take_blocks(alloc, blocks).is_err() => ("still to be refused", ""),
        None => ("no call asked for memory", ""),
    }
}

fn main(rt: HostRuntime) -> io::Result<ExitCode> {
    let alloc = rt.alloc();
    let blocks = number_on(&mut rt.reader())?;
    take_blocks(alloc, blocks)?;
    let mut calls = Calls::new();
    if let Err(wrong) = make_calls(&rt, alloc, &mut calls) {
        println!(rt; "{}: {wrong}", calls.name)?;
        return Ok(ExitCode::from(1));
    }
    let (what, wanted) = told(alloc, &calls, blocks);
    println!(rt; "{what}{wanted}")?;
    Ok(ExitCode::from(0))
}
