//! Commits and finds of the journal over devices in memory: what a log has behind them, whatever stops
//! them, and where a damaged log is refused. Expected values were worked out by hand and by an
//! independent program. It exports nothing.
#![tactic(auto)]

#[cfg(test)]
mod commits;
#[cfg(test)]
mod damage;
#[cfg(test)]
mod finds;
#[cfg(test)]
mod rooms;
#[cfg(test)]
mod small;
#[cfg(test)]
mod states;
#[cfg(test)]
mod tables;
