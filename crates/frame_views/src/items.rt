//! The lists of frames and certificates.

pub(crate) mod logs;
pub(crate) mod replies;
pub(crate) mod tallies;
pub(crate) mod votes;
pub(crate) mod words;

pub use logs::{LogItem, LogsIter, LogsView};
pub use replies::{InvokeItem, InvokesIter, InvokesView};
pub use tallies::{ShardItem, TalliesIter, TalliesView};
pub use votes::{VoteItem, VotesIter, VotesView};
pub use words::{ElectItem, ElectsIter, ElectsView};
