//! Deliveries, losses, stops and forged frames.

use crate::lines::{Row, are_told};

const ROWS: &[Row] = &[
    // The spelling allows any number of a message, from 0 to 2^64 - 1.
    (b"deliver 0", 0),
    (b"deliver 18446744073709551615", 0),
    // A message is lost.
    (b"lose 1", 0),
    // Frames from either kind of party to either: twice a zero byte, the bytes 0 and 255, and one with every hex digit.
    (b"raw client 1 client 16 00", 0),
    (b"raw client 1 replica 0 0 00", 0),
    (b"raw replica 7 30 client 1 00ff", 0),
    (b"raw replica 0 0 replica 7 30 0123456789abcdef", 0),
    // A journal is cut off in its first write and in its second; `00` is a zero byte, `4d4d` is MM.
    (b"stop 0 0 0 1 00", 0),
    (b"stop 7 30 18446744073709551615 2 4d4d", 0),
    // The number is missing, also behind a space (reason 2).
    (b"deliver", 2),
    (b"deliver ", 2),
    // A token too many (reason 2).
    (b"deliver 1 2", 2),
    // A number has decimal digits alone (reason 2).
    (b"deliver -1", 2),
    (b"deliver +1", 2),
    (b"deliver 1a", 2),
    (b"deliver 0x1", 2),
    // Two spaces (reason 2).
    (b"deliver  1", 2),
    // A tab instead of the space (reason 2).
    (b"deliver\x091", 2),
    // A letter instead of the number (reason 2).
    (b"lose x", 2),
    // The receiver is missing (reason 2).
    (b"raw client 1 00", 2),
    // The frame is missing (reason 2).
    (b"raw client 1 client 2", 2),
    // A byte has two digits (reason 2).
    (b"raw client 1 client 2 0", 2),
    // G is no hex digit (reason 2).
    (b"raw client 1 client 2 0G", 2),
    // Hex digits are lower-case (reason 2).
    (b"raw client 1 client 2 AB", 2),
    // The bytes are missing (reason 2).
    (b"stop 0 0 1 2", 2),
    // A byte has two digits (reason 2).
    (b"stop 0 0 1 2 0", 2),
    // A number has no leading zero (reason 3).
    (b"deliver 00", 3),
    (b"deliver 01", 3),
    // A number is below 2^64: one is 2^64, and one has forty digits (reason 3).
    (b"deliver 18446744073709551616", 3),
    (b"deliver 9999999999999999999999999999999999999999", 3),
    // No client has the number 17 (reason 3).
    (b"raw client 17 client 1 00", 3),
    // A write is 1 or 2, and here 0 and 3 (reason 3).
    (b"stop 0 0 1 0 00", 3),
    (b"stop 0 0 1 3 00", 3),
    // No cluster has a shard 8 (reason 3).
    (b"stop 8 0 1 1 00", 3),
    // A token too many is told before a leading zero (reason 2).
    (b"deliver 01 x", 2),
    // A byte of one digit is told before a client that nobody is (reason 2).
    (b"raw client 17 client 1 0", 2),
];

#[test]
fn each_line_is_read_or_refused(rt: HostRuntime) {
    are_told(&rt, rt.alloc(), ROWS);
}
