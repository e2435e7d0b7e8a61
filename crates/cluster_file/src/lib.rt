//! The file that names the replicas and clients of a cluster: read strictly, with the first reason where it is refused.
#![tactic(auto)]

mod draft;
mod fault;
mod file;
mod judging;
mod keys;
mod members;
mod reading;
mod seats;

pub use fault::{BAD_KEY, FileFault, NOT_A_FILE, REFUSED_CLUSTER, WRONG_PARTIES};
pub use file::ClusterFile;
pub use reading::read_cluster;
