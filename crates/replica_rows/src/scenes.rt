//! Whole runs of one replica, as texts: what comes to it, and what it answers.

mod adopted;
mod asked;
mod casts;
mod elected;
mod exhausted;
mod logged;
mod phrases;
mod plain;
mod proven;
mod raised;
mod read;
mod refused;
mod released;
mod roads;
mod ruled;
mod spelled;
mod stages;
mod telling;
