//! Tests of types and forms, of a pool of messages, of disks and their journals, and of the adapters to this machine.
#![tactic(auto)]

#[cfg(test)]
mod clusters;
#[cfg(test)]
mod disks;
#[cfg(test)]
mod forms;
#[cfg(test)]
mod ids;
#[cfg(test)]
mod journals;
#[cfg(test)]
mod links;
#[cfg(test)]
mod machine;
#[cfg(test)]
mod outside;
#[cfg(test)]
mod plain_keys;
#[cfg(test)]
mod pools;
#[cfg(test)]
mod transactions;
#[cfg(test)]
mod values;
#[cfg(test)]
mod words;
