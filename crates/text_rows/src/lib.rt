//! Tests of what stands in texts: the file of a cluster, a load, a history.
#![tactic(auto)]

#[cfg(test)]
mod clusters;
#[cfg(test)]
mod histories;
#[cfg(test)]
mod loads;
