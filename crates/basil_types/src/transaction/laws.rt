//! Laws of transactions.

ghost use Rattle.std.specs.Prelude.{◌≡◌};
ghost use Rattle.basil_types.specs.Transaction.{TransactionValue, IsTransaction, canonical};

/// A transaction has one spelling, and a spelling is of one transaction: equal canonical bytes are equal transactions.
pub fn one_spelling()
    ensures { (t u : TransactionValue) → IsTransaction t → IsTransaction u → canonical t ≡ canonical u → t ≡ u }
{}
