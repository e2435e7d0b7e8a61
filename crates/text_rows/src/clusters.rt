//! The file of a cluster, as tables of texts with the first reason to refuse each.

mod answers;
mod keys;
mod members;
mod numbers;
mod order;
mod parties;
mod support;
