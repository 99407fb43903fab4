//! Diagnoses a recording that no order explains.

use std::alloc::{AllocError, Global};
use tool_calls::{Neighbours, Recorded, Runs, first_of, other};
use tool_facts::{evidence_of, find_all, further_of};
use tool_guess::likely_cause;
use tool_picture::{Diagnosis, few_of, undrawn};

/// Diagnoses a recording. Returns `None` if some order explains the recording. Allocates.
pub fn diagnose(alloc: Global, recorded: &Recorded) -> Result<Option<Diagnosis>, AllocError> {
    let runs = Runs::of(alloc, recorded)?;
    let keys = runs.keys()?;
    let refused = runs.refused(&keys)?;
    let Some(first) = first_of(&refused) else {
        return Ok(None);
    };
    let neighbours = Neighbours::of(alloc, &recorded.calls)?;
    let found = find_all(alloc, &runs, &refused, &neighbours)?;
    let evidence = evidence_of(alloc, &runs, &keys, &refused, &found, &neighbours)?;
    let further = further_of(alloc, &runs, &keys, first.moment, &found, &neighbours)?;
    let was = match recorded.leaves(first.key) {
        Some(left) => other(left),
        None => recorded.opens(first.key),
    };
    let cause = likely_cause(&evidence, &further);
    let mut diagnosis = undrawn(alloc, first, was, evidence, further, cause);
    diagnosis.few = few_of(alloc, &found)?;
    diagnosis.draw(alloc, &runs, &found, first, &neighbours)?;
    Ok(Some(diagnosis))
}
