//! The map that listed transactions leave, and the audit of their reads.

mod audits;
mod listed;
mod maps;
