//! Tests of the commands that speak over links with other processes, through the top call over memory.
#![tactic(auto)]

#[cfg(test)]
mod arguments;
#[cfg(test)]
mod certified;
#[cfg(test)]
mod clients;
#[cfg(test)]
mod frames;
#[cfg(test)]
mod handed;
#[cfg(test)]
mod refused;
#[cfg(test)]
mod served;
#[cfg(test)]
mod support;
