// What stands in a client's outbox.

use crate::received::Received;
use outbox::{ROOM, Taker};
use std::alloc::AllocError;
use std::sync::Wait;

/// Takes all that stands there.
pub(crate) fn take_all<R: Wait>(
    rt: &R,
    taker: &mut Taker,
    to: &mut Received,
) -> Result<(), AllocError> {
    for _ in 0..=ROOM {
        match taker.take(rt) {
            Some(delivery) => to.add(delivery.bytes().as_slice())?,
            None => return Ok(()),
        }
    }
    Ok(())
}
