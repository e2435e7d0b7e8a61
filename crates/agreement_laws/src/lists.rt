//! The lists of signatures that messages carry are the sets of replicas that the laws speak of.

ghost use Rattle.agreement_laws.specs.Lists.{VotesOfList, LogOfList, ElectionOfList};

/// An ascending list of votes is a set of as many votes.
pub fn votes_of_list()
    ensures { VotesOfList }
{}

/// An ascending list of log replies with one decision and one decided view, of at least a log quorum, is a log
/// certificate.
pub fn log_of_list()
    ensures { LogOfList }
{}

/// An ascending list of election words for one view, exactly a log quorum, of which a majority names a decision,
/// elects it.
pub fn election_of_list()
    ensures { ElectionOfList }
{}
