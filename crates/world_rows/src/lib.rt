//! Tests of a world: what its events come to, what it tells, and what ends it; and of the watch over it.
#![tactic(auto)]

#[cfg(test)]
mod breaches;
#[cfg(test)]
mod carried;
#[cfg(test)]
mod limits;
#[cfg(test)]
mod replays;
#[cfg(test)]
mod stopped;
#[cfg(test)]
mod telling;
#[cfg(test)]
mod trials;
#[cfg(test)]
mod trusting;
#[cfg(test)]
mod watch;
#[cfg(test)]
mod worlds;
