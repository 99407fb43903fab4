use lset_live::OpenFault;
use lset_server::ServeCause;
use lset_work::WorkCause;
use tool_base::{SystemCause, Trouble, ValueName};

/// Converts the error of `open_with` to the program's error. The number of seats (per-thread handles to the set) and
/// the quota (successful adds per seat) were checked when the arguments were read, so both are within the limits.
pub(crate) fn opening_trouble(fault: OpenFault) -> Trouble {
    match fault {
        OpenFault::Seats => Trouble::Bad(ValueName::Threads),
        OpenFault::Quota => Trouble::Bad(ValueName::Quota),
        OpenFault::Opening => Trouble::Work(SystemCause::Opening),
        OpenFault::Memory => Trouble::Memory,
    }
}

/// Converts the error of `work` to the program's error.
pub(crate) fn work_trouble(cause: WorkCause) -> Trouble {
    match cause {
        WorkCause::Programs => Trouble::Work(SystemCause::Programs),
        WorkCause::Spawn => Trouble::Work(SystemCause::Spawn),
        WorkCause::Gate => Trouble::Work(SystemCause::Gate),
        WorkCause::Memory => Trouble::Memory,
    }
}

/// Converts the error of `serve` to the program's error.
pub(crate) fn serve_trouble(cause: ServeCause) -> Trouble {
    match cause {
        ServeCause::Seats => Trouble::Serve(SystemCause::Seats),
        ServeCause::Accept => Trouble::Serve(SystemCause::Accept),
        ServeCause::Spawn => Trouble::Serve(SystemCause::Spawn),
        ServeCause::Send => Trouble::Serve(SystemCause::Send),
        ServeCause::Memory => Trouble::Memory,
        ServeCause::Left => Trouble::Serve(SystemCause::Left),
    }
}
