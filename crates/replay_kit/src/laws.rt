//! The kit of batches meets what the safety of a run asks of it.

ghost use Rattle.replay_kit.specs.Values.{BatchKitsSign};

/// What a pen of batches over a plain one gives has 34 bytes, so it fits a frame.
pub fn batch_kits_sign()
    ensures { BatchKitsSign }
{}
