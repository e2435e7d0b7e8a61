//! Tests that cross crates: whole schedules, by the top call over memory.
#![tactic(auto)]

#[cfg(test)]
mod audited;
#[cfg(test)]
mod batches;
#[cfg(test)]
mod broken;
#[cfg(test)]
mod causes;
#[cfg(test)]
mod checked;
#[cfg(test)]
mod failing;
#[cfg(test)]
mod levels;
#[cfg(test)]
mod lines;
#[cfg(test)]
mod loads;
#[cfg(test)]
mod loopback;
#[cfg(test)]
mod refused;
#[cfg(test)]
mod replayed;
#[cfg(test)]
mod signatures;
#[cfg(test)]
mod sizes;
#[cfg(test)]
mod support;
#[cfg(test)]
mod texts;
#[cfg(test)]
mod whole;
