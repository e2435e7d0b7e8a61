//! How large a tree is.

ghost use Rattle.std.specs.Prelude.{◌≡◌, ◌≤◌, ◌^◌};
ghost use Rattle.batch_sign.specs.Trees as trees;
ghost use Rattle.batch_sign.specs.Trees.{most_depth, most_messages};

/// The least depth of a tree with a leaf for each of so many messages.
#[tactic(auto, unfolding(crate::specs::Trees::depth_of))]
pub(crate) fn depth_of(count: usize) -> u8
    requires { count ≤ most_messages }
    ensures depth { result ≡ trees.depth_of count }
    ensures most { result ≤ most_depth }
    ensures room { count ≤ 2 ^ result }
{
    match count {
        0..=1 => 0,
        2 => 1,
        3..=4 => 2,
        5..=8 => 3,
        9..=16 => 4,
        17..=32 => 5,
        33..=64 => 6,
        65..=128 => 7,
        _ => 8,
    }
}

/// The number of leaves of a tree.
pub(crate) fn width_of(depth: u8) -> u16
    requires { depth ≤ most_depth }
    ensures width { result ≡ 2 ^ depth }
    ensures some { 1 ≤ result }
    ensures most { result ≤ 256 }
{
    match depth {
        0 => 1,
        1 => 2,
        2 => 4,
        3 => 8,
        4 => 16,
        5 => 32,
        6 => 64,
        7 => 128,
        _ => 256,
    }
}
