//! Whole runs of one client, as texts: what it is asked and what comes to it, and what it answers and sends.
#![tactic(auto)]

#[cfg(test)]
mod asking;
#[cfg(test)]
mod called;
#[cfg(test)]
mod casts;
#[cfg(test)]
mod decided;
#[cfg(test)]
mod guest;
#[cfg(test)]
mod phrases;
#[cfg(test)]
mod read;
#[cfg(test)]
mod recovered;
#[cfg(test)]
mod refused;
#[cfg(test)]
mod roads;
#[cfg(test)]
mod seconds;
#[cfg(test)]
mod seen;
#[cfg(test)]
mod spelled;
#[cfg(test)]
mod stages;
#[cfg(test)]
mod telling;
#[cfg(test)]
mod unproved;
