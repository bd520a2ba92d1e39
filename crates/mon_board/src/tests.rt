//! What no clause says: that a look gives a new version at all.

use crate::Board;
use std::test::Fail;

#[test]
fn a_look_gives_what_was_published(rt: HostRuntime) -> Result<(), Fail> {
    let (board, mut writer, mut looker) = Board::new(rt.alloc(), 1)?;
    board.publish(&mut writer, 0, 5);
    assert_eq!(rt; board.look(&mut looker, 0), 5);
    let mut other = board.split(&mut looker);
    assert_eq!(rt; board.look(&mut other, 0), 5);
    board.join(&mut looker, other);
    board.gather(&mut writer, looker);
    Ok(())
}
