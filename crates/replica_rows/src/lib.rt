//! Tests of a replica, and of what it is made of, as tables.
#![tactic(auto)]

#[cfg(test)]
mod chains;
#[cfg(test)]
mod elections;
#[cfg(test)]
mod logs;
#[cfg(test)]
mod making;
#[cfg(test)]
mod quorums;
#[cfg(test)]
mod scenes;
#[cfg(test)]
mod stores;
#[cfg(test)]
mod tables;
#[cfg(test)]
mod tallies;
#[cfg(test)]
mod verdicts;
#[cfg(test)]
mod views;
