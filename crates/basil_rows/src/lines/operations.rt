//! Reads, writes and deletions.

use crate::lines::{Row, are_told};

const ROWS: &[Row] = &[
    // A read of a key of one byte.
    (b"read a k", 0),
    // A key of 64 bytes, the most: 64 times k.
    (
        b"read a kkkkkkkkkkkkkkkkkkkkkkkkkkkkkkkkkkkkkkkkkkkkkkkkkkkkkkkkkkkkkkkk",
        0,
    ),
    // A key of 64 zero bytes, each of them spelled with three characters.
    (
        b"read a %00%00%00%00%00%00%00%00%00%00%00%00%00%00%00%00%00%00%00%00%00%00%00%00%00%00%00%00%00%00%00%00%00%00%00%00%00%00%00%00%00%00%00%00%00%00%00%00%00%00%00%00%00%00%00%00%00%00%00%00%00%00%00%00",
        0,
    ),
    // The empty value is `%` alone.
    (b"write a k %", 0),
    // A value of 256 bytes, the most: 256 times v.
    (
        b"write a k vvvvvvvvvvvvvvvvvvvvvvvvvvvvvvvvvvvvvvvvvvvvvvvvvvvvvvvvvvvvvvvvvvvvvvvvvvvvvvvvvvvvvvvvvvvvvvvvvvvvvvvvvvvvvvvvvvvvvvvvvvvvvvvvvvvvvvvvvvvvvvvvvvvvvvvvvvvvvvvvvvvvvvvvvvvvvvvvvvvvvvvvvvvvvvvvvvvvvvvvvvvvvvvvvvvvvvvvvvvvvvvvvvvvvvvvvvvvvvvvvvvvvvvvvvvvvvvv",
        0,
    ),
    // A space, `%`, `:` and the bytes 7f and ff, each spelled with `%` and two hex digits.
    (b"write a k %20%25%3a%7f%ff", 0),
    // Six marks of a key that stand for themselves, from `!`, the first, to `~`, the last; `\x22` is a quotation mark.
    (b"write a !\x22#$&~ v", 0),
    // A deletion of a key of one byte.
    (b"delete a k", 0),
    // A deletion of a key of 64 bytes.
    (
        b"delete a kkkkkkkkkkkkkkkkkkkkkkkkkkkkkkkkkkkkkkkkkkkkkkkkkkkkkkkkkkkkkkkk",
        0,
    ),
    // The key is missing (reason 2).
    (b"read a", 2),
    // A key has a byte at least, so `%` alone is misspelt (reason 2).
    (b"read a %", 2),
    // `%61` is the letter a, which stands for itself (reason 2).
    (b"read a %61", 2),
    // Behind `%` stands one digit and not two (reason 2).
    (b"read a %0", 2),
    // Behind `%` stands no digit: the line of the empty key again (reason 2).
    (b"read a %", 2),
    // g is no hex digit (reason 2).
    (b"read a %g0", 2),
    // Hex digits are lower-case (reason 2).
    (b"read a %0A", 2),
    (b"read a %FF", 2),
    // A colon is `%3a` (reason 2).
    (b"read a a:b", 2),
    // A tab is `%09` (reason 2).
    (b"read a a\x09b", 2),
    // A token too many (reason 2).
    (b"read a k k", 2),
    // The value is missing (reason 2).
    (b"write a k", 2),
    // The key is empty, and behind it stand two spaces (reason 2).
    (b"write a %  v", 2),
    // The key is empty (reason 2).
    (b"write a % v", 2),
    // `%` is the empty value where it stands alone, and not in a longer one (reason 2).
    (b"write a k %%", 2),
    (b"write a k v%", 2),
    // A key of 65 bytes, 65 times k (reason 8).
    (
        b"read a kkkkkkkkkkkkkkkkkkkkkkkkkkkkkkkkkkkkkkkkkkkkkkkkkkkkkkkkkkkkkkkkk",
        8,
    ),
    // A key of 65 zero bytes (reason 8).
    (
        b"read a %00%00%00%00%00%00%00%00%00%00%00%00%00%00%00%00%00%00%00%00%00%00%00%00%00%00%00%00%00%00%00%00%00%00%00%00%00%00%00%00%00%00%00%00%00%00%00%00%00%00%00%00%00%00%00%00%00%00%00%00%00%00%00%00%00",
        8,
    ),
    // A deletion of a key of 65 bytes (reason 8).
    (
        b"delete a kkkkkkkkkkkkkkkkkkkkkkkkkkkkkkkkkkkkkkkkkkkkkkkkkkkkkkkkkkkkkkkkk",
        8,
    ),
    // A value of 257 bytes, 257 times v (reason 8).
    (
        b"write a k vvvvvvvvvvvvvvvvvvvvvvvvvvvvvvvvvvvvvvvvvvvvvvvvvvvvvvvvvvvvvvvvvvvvvvvvvvvvvvvvvvvvvvvvvvvvvvvvvvvvvvvvvvvvvvvvvvvvvvvvvvvvvvvvvvvvvvvvvvvvvvvvvvvvvvvvvvvvvvvvvvvvvvvvvvvvvvvvvvvvvvvvvvvvvvvvvvvvvvvvvvvvvvvvvvvvvvvvvvvvvvvvvvvvvvvvvvvvvvvvvvvvvvvvvvvvvvvvv",
        8,
    ),
    // A write to a key of 65 bytes (reason 8).
    (
        b"write zz kkkkkkkkkkkkkkkkkkkkkkkkkkkkkkkkkkkkkkkkkkkkkkkkkkkkkkkkkkkkkkkkk v",
        8,
    ),
    // A key of 65 bytes and a value of 257 (reason 8).
    (
        b"write a kkkkkkkkkkkkkkkkkkkkkkkkkkkkkkkkkkkkkkkkkkkkkkkkkkkkkkkkkkkkkkkkk vvvvvvvvvvvvvvvvvvvvvvvvvvvvvvvvvvvvvvvvvvvvvvvvvvvvvvvvvvvvvvvvvvvvvvvvvvvvvvvvvvvvvvvvvvvvvvvvvvvvvvvvvvvvvvvvvvvvvvvvvvvvvvvvvvvvvvvvvvvvvvvvvvvvvvvvvvvvvvvvvvvvvvvvvvvvvvvvvvvvvvvvvvvvvvvvvvvvvvvvvvvvvvvvvvvvvvvvvvvvvvvvvvvvvvvvvvvvvvvvvvvvvvvvvvvvvvvvv",
        8,
    ),
    // A value that is misspelt, as a colon, is told before a key of 65 bytes (reason 2).
    (
        b"write a kkkkkkkkkkkkkkkkkkkkkkkkkkkkkkkkkkkkkkkkkkkkkkkkkkkkkkkkkkkkkkkkk :",
        2,
    ),
    // A name that is misspelt, with a capital letter, is told before a key of 65 bytes (reason 2).
    (
        b"read A kkkkkkkkkkkkkkkkkkkkkkkkkkkkkkkkkkkkkkkkkkkkkkkkkkkkkkkkkkkkkkkkk",
        2,
    ),
];

#[test]
fn each_line_is_read_or_refused(rt: HostRuntime) {
    are_told(&rt, rt.alloc(), ROWS);
}
