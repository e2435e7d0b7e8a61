//! Tests that cross crates: frames of an independent program, what is refused, and the longest frames.
#![tactic(auto)]

#[cfg(test)]
mod answers;
#[cfg(test)]
mod carried;
#[cfg(test)]
mod clients;
#[cfg(test)]
mod faults;
#[cfg(test)]
mod fitting;
#[cfg(test)]
mod longest;
#[cfg(test)]
mod refusals;
#[cfg(test)]
mod replicas;
#[cfg(test)]
mod rules;
#[cfg(test)]
mod telling;
#[cfg(test)]
mod unsigned;
#[cfg(test)]
mod writebacks;
#[cfg(test)]
mod writers;
