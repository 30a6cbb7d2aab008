//! Tests of calls whose answers were worked out by hand: entries made of a number (`fm_gen`), rate
//! engines (`dx_serd`), and the bindings with which each of some tables has a row (`ev_join`).
#![tactic(auto)]

#[cfg(test)]
mod generated;
#[cfg(test)]
mod joined;
#[cfg(test)]
mod rates;
