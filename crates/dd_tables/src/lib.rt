//! Hostile use of `serve`, as tables over a rig in memory: each call fails once, the machine stops at each
//! call and again while it recovers, the flash is damaged or cut off, and lines are no commands. It exports
//! nothing.
#![tactic(auto)]

#[cfg(test)]
mod cases;
#[cfg(test)]
mod damages;
#[cfg(test)]
mod failures;
#[cfg(test)]
mod lines;
#[cfg(test)]
mod rows;
#[cfg(test)]
mod stops;
#[cfg(test)]
mod told;
#[cfg(test)]
mod world;
