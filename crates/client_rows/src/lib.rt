//! Tests that cross crates: certificates, tallies and the proofs of votes, and what a client makes of read replies.
#![tactic(auto)]

#[cfg(test)]
mod answers;
#[cfg(test)]
mod choices;
#[cfg(test)]
mod made;
#[cfg(test)]
mod proofs;
#[cfg(test)]
mod proving;
#[cfg(test)]
mod pursuing;
#[cfg(test)]
mod pursuits;
#[cfg(test)]
mod replies;
#[cfg(test)]
mod reply_vectors;
#[cfg(test)]
mod stages;
#[cfg(test)]
mod tallies;
#[cfg(test)]
mod told;
#[cfg(test)]
mod undone;
#[cfg(test)]
mod vectors;
