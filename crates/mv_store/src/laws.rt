//! Laws of what a store stands for.

ghost use Rattle.std.specs.Prelude.{List, Contains};
ghost use Rattle.mv_store.specs.declared.store.Store.{Store};
ghost use Rattle.mv_store.specs.Held.{Held, NotedRead};
ghost use Rattle.mv_store.specs.Store.{Stands, HasRoom, HaveSame, GreatestAnswers, GreatestDecide};

/// The order of the entered transactions and of the noted reads decides nothing, nor does how often one stands there.
pub fn order_decides_nothing()
    ensures { (store : Store) (held others : List Held) (noted other_reads : List NotedRead)
        → Stands store held noted → HaveSame held others → HaveSame noted other_reads
        → Stands store others other_reads }
{}

/// There is room for each entered transaction, so that a prepared one can become committed.
pub fn entered_ones_have_room()
    ensures { (store : Store) (held : List Held) (noted : List NotedRead) (h : Held) → Stands store held noted
        → Contains held h → HasRoom store h.transaction }
{}

/// Of the noted reads only the greatest of each key decides: lists that answer alike stand alike.
pub fn greatest_reads_decide()
    ensures answers { GreatestAnswers }
    ensures decide { GreatestDecide }
{}
