//! What waits for a signature is what the rules of a run have faulty parties say.

ghost use Rattle.basil_types.specs.declared.party.Decision.{Decision};
ghost use Rattle.std.specs.Prelude.{ℕ};
ghost use Rattle.basil_types.specs.Transaction.{TransactionValue};
ghost use Rattle.cluster_run.specs.Faulty.{faulty_proposal, faulty_reply, faulty_vote, faulty_word, words_from};
ghost use Rattle.cluster_run.specs.States.{Setup, State};
ghost use Rattle.faulty_parties.specs.Unsaid.{IsSaid, unsaid_proposal, unsaid_reply, unsaid_vote, unsaid_word};

/// A law: with its party's next signature, what waits is the lie that a line of a schedule names.
pub fn lies_are_said()
    ensures votes { (s : Setup) (st : State) (shard r : ℕ) (t : TransactionValue) (d : Decision) (client : ℕ) →
        IsSaid s st (unsaid_vote shard r t d client) (faulty_vote s shard r t d client st) }
    ensures replies { (s : Setup) (st : State) (shard r : ℕ) (t : TransactionValue) (d : Decision)
        (decided current client : ℕ) → IsSaid s st (unsaid_reply shard r t d decided current client)
        (faulty_reply s shard r t d decided current client st) }
    ensures words { (s : Setup) (st : State) (shard r : ℕ) (t : TransactionValue) (d : Decision) (view : ℕ) →
        IsSaid s st (unsaid_word s.cluster shard r t d view) (faulty_word s shard r t d view st) }
    ensures proposals { (s : Setup) (st : State) (shard r : ℕ) (t : TransactionValue) (d : Decision) (view to : ℕ) →
        IsSaid s st (unsaid_proposal shard r t d view to (words_from s st t d shard view))
        (faulty_proposal s shard r t d view to st) }
{}
