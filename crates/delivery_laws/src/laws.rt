//! A replica's book changes by the frames that it takes, and by nothing else.

ghost use Rattle.delivery_laws.specs.Laws.{BooksBeginEmpty, BooksFollowDeliveries, ReplicasStay};

/// An event changes the book of a replica only where it hands that replica a frame that the replica takes, and then by
/// the step that the frame is: of no other event and at no other replica does a book change.
pub fn books_follow_deliveries()
    ensures { BooksFollowDeliveries }
{}

/// At the start each replica of the cluster has the empty book, with its pen.
pub fn books_begin_empty()
    ensures { BooksBeginEmpty }
{}

/// The replicas of a run are the same ones, in the same order, after every event.
pub fn replicas_stay()
    ensures { ReplicasStay }
{}
