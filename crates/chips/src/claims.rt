// Claims of shims.
use crate::ask::claim;
use crate::stand::{SHIMS, Stand};
use handles::Ready;
use std::test::*;

// Among them numbers that would be those of a shim in fewer bits.
#[test]
fn a_shim_that_is_not_there(rt: HostRuntime) -> Result<(), Fail> {
    let mut stand = Stand::new(SHIMS)?;
    for shim in [2, 3, 8, 256, 65_537, u32::MAX] {
        assert_eq!(rt; claim(&mut stand.board, shim), Err(3), "shim {shim}");
    }
    Ok(())
}

#[test]
fn a_shim_that_is_claimed(rt: HostRuntime) -> Result<(), Fail> {
    let mut stand = Stand::new(SHIMS)?;
    let ready = Ready::claim(&mut stand.board, 1)?;
    assert_eq!(rt; claim(&mut stand.board, 1), Err(13));
    assert_eq!(rt;
        claim(&mut stand.board, 1),
        Err(13),
        "the refusal ends no claim"
    );
    ready.hand_back(&mut stand.board);
    assert_eq!(rt; claim(&mut stand.board, 1), Ok(()));
    Ok(())
}

#[test]
fn every_other_shim_stays_free(rt: HostRuntime) -> Result<(), Fail> {
    let mut stand = Stand::new(8)?;
    let ready = Ready::claim(&mut stand.board, 5)?;
    for shim in 0..8 {
        let wanted = if shim == 5 { Err(13) } else { Ok(()) };
        assert_eq!(rt; claim(&mut stand.board, shim), wanted, "shim {shim}");
    }
    ready.hand_back(&mut stand.board);
    Ok(())
}

#[test]
fn every_other_claim_stays(rt: HostRuntime) -> Result<(), Fail> {
    let mut stand = Stand::new(SHIMS)?;
    stand.board.claim(0)?;
    let ready = Ready::claim(&mut stand.board, 1)?;
    ready.hand_back(&mut stand.board);
    assert_eq!(rt; claim(&mut stand.board, 0), Err(13));
    assert_eq!(rt; claim(&mut stand.board, 1), Ok(()));
    Ok(())
}
