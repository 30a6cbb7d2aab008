//! Tests of the crate `fm_core`: counters worked in one order and another, with falls between, end
//! alike; a counter's saves and limit; modules behind boxes.
#![tactic(auto)]

#[cfg(test)]
mod trials;
