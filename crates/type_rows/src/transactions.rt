//! Transactions and their canonical bytes.

mod altered;
mod built;
mod shown;

use basil_types::transaction::{PartFault, TransactionView};

/// Time 10, client 1, no reads, one write of x1 to a.
pub(crate) const WRITES: [u8; 18] = [
    1, 0, 0, 0, 0, 0, 0, 0, 10, 1, 0, 1, 1, 0x61, 0, 2, 0x78, 0x31,
];

/// Time 20, client 2, no reads, the deletion of a.
pub(crate) const DELETES: [u8; 15] = [2, 0, 0, 0, 0, 0, 0, 0, 20, 2, 0, 1, 1, 0x61, 0];

/// What is said of the transaction from a place on; of a place past the end nothing.
pub(crate) fn verdict(bytes: &[u8], at: usize) -> Result<(), PartFault> {
    if at > bytes.len() {
        return Ok(());
    }
    match TransactionView::read(bytes, at) {
        Ok(_view) => Ok(()),
        Err(fault) => Err(fault),
    }
}
