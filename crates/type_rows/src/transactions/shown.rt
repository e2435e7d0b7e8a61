//! What views show.

use super::WRITES;
use basil_types::transaction::TransactionView;
use std::test::Fail;

#[test]
fn a_view_shows_its_parts(rt: HostRuntime) -> Result<(), Fail> {
    let owned = TransactionView::read(&WRITES, 0)?.try_owned(rt.alloc())?;
    let view = owned.view();
    assert!(rt; view.bytes() == WRITES.as_slice());
    assert!(rt; (view.format(), view.time(), view.client()) == (1, 10, 1));
    assert!(rt; view.read_at(0).is_none());
    assert!(rt; view.write_at(1).is_none());
    let item = view.write_at(0).ok_or("none")?;
    assert!(rt; item.key == b"a".as_slice() && item.value == b"x1".as_slice() && !item.deletes);
    Ok(())
}
