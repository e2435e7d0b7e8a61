//! A run whose parties sign with LMS keys: each of them has a tree of 32 leaves.

use crate::whole::{Whole, is_carried, is_replayed};
use basil_cli::status::Status;
use std::test::Fail;

const ONE_WRITE: &Whole = &(
    "one write, with as many messages as with plain keys",
    b"\
    basil 1 f=0 shards=1 reads=1 delta=100 clock=50 keys=w4h5\n\
    begin t1 1 10\n\
    write t1 a x1\n\
    prepare t1\n\
    round\n\
    round\n\
    round\n",
    Status::Done,
    b"tx t1 commit\nkey a x1\nend 3\n",
);

#[test]
fn it_is_replayed(rt: HostRuntime) -> Result<(), Fail> {
    assert!(rt; is_replayed(rt.alloc(), ONE_WRITE)?);
    Ok(())
}

#[test]
fn it_is_carried(rt: HostRuntime) -> Result<(), Fail> {
    assert!(rt; is_carried(rt.alloc(), ONE_WRITE)?);
    Ok(())
}
