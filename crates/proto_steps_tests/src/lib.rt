//! Tests of `proto_steps`, by its public calls.
#![tactic(auto)]

#[cfg(test)]
mod services;
