//! Tests of a node: the envelopes of a connection, asks and their answers, a replica that serves connections, and one that
//! starts again from what it wrote down.
#![tactic(auto)]

#[cfg(test)]
mod asks;
#[cfg(test)]
mod readers;
#[cfg(test)]
mod restarts;
#[cfg(test)]
mod serving;
