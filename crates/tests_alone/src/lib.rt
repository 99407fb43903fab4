//! The tests that start no threads: cases computed by hand, large inputs, and readers and writers that fail.
#![tactic(auto)]

#[cfg(test)]
mod broken; // broken lists are refused
#[cfg(test)]
mod byte_by_byte; // inputs and outputs in single bytes
#[cfg(test)]
mod contradiction_counts; // contradictions found by counting
#[cfg(test)]
mod failing_devices; // readers and writers that fail
#[cfg(test)]
mod failures; // the program with failing reads and writes
#[cfg(test)]
mod hand_worked; // cases computed by hand
#[cfg(test)]
mod judged_calls; // errors and contradictions of the judge
#[cfg(test)]
mod large; // the largest histories and recordings
#[cfg(test)]
mod library_sizes; // libraries at sizes 0 to 200
#[cfg(test)]
mod prelude; // imports of most tests
#[cfg(test)]
mod servers; // servers that cannot write their output
#[cfg(test)]
mod test_histories; // histories for several tests
