//! Tables of calls of a store over devices in memory: what each call answers, what the disk has behind the last
//! one, and what a crash at each call leaves. Expected values were worked out by hand and by an independent
//! program. It exports nothing.
#![tactic(auto)]

#[cfg(test)]
mod blocks;
#[cfg(test)]
mod cache;
#[cfg(test)]
mod crashes;
#[cfg(test)]
mod lists;
#[cfg(test)]
mod rows;
#[cfg(test)]
mod steps;
