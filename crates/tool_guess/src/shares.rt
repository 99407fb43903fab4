//! Tests whether a number is a large enough part of another number, and computes how likely that is by chance. The numbers
//! count contradictions (a few calls on one key that no order explains), wrong replies or changes.

/// A share of contradictions counts only if there are at least this many contradictions.
pub(crate) const ENOUGH: u64 = 5;

/// Returns `true` if `some` is at least `percent` percent of `all`.
pub(crate) fn is_least(some: u64, all: u64, percent: u64) -> bool {
    some.saturating_mul(100) >= all.saturating_mul(percent)
}

/// Returns `true` if `some` is at least `percent` percent of `all`, and `all` is at least `ENOUGH`.
pub(crate) fn is_share(some: u64, all: u64, percent: u64) -> bool {
    all >= ENOUGH && is_least(some, all, percent)
}

/// Returns the probability, in parts per million, that an event with a chance of `percent` percent happens `times`
/// times in a row.
pub(crate) fn share_of_all(percent: u64, times: u64) -> u64 {
    let mut share = 1_000_000u64;
    for _ in 0..times.min(40) {
        share = share.saturating_mul(percent).checked_div(100).unwrap_or(0);
    }
    share
}
