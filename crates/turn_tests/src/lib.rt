//! Tests of the turn book and its callers: threads end, and each turn is taken once.
#![tactic(auto)]

#[cfg(test)]
mod turns;
