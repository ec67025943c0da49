//! A large run over devices in memory. It exports nothing.
#![tactic(auto)]

#[cfg(test)]
mod large;
