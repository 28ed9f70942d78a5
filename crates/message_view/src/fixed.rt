// The fixed part of a header.

ghost use Rattle.std.specs.Prelude.{◌≡◌, ◌+◌, ◌<◌, ◌≤◌};
ghost use Rattle.message_value.specs.Spelling.{padding};
ghost use Rattle.message_view.specs.FixedAnswers.{ReadsFixed};

use crate::kind::Kind;
use message_value::{MsgError, Order, padding};

pub(crate) const FIXED_LEN: usize = 16;

const VERSION: u8 = 1;

const MAX_ARRAY_LEN: u32 = 67_108_864;

const MAX_MESSAGE_LEN: u64 = 134_217_728;

/// The first 16 bytes of a message.
#[derive(Clone, Copy)]
pub(crate) struct Fixed {
    pub(crate) order: Order,
    pub(crate) kind: Kind,
    pub(crate) flags: u8,
    pub(crate) body_len: u32,
    pub(crate) serial: u32,
    pub(crate) fields_len: u32,
}

impl Fixed {
    /// The fixed part of a message that begins with these bytes, where all of it is there. Each check
    /// is made as soon as its bytes are there.
    pub(crate) fn read(bytes: &[u8]) -> Result<Option<Fixed>, MsgError>
        ensures { ReadsFixed result bytes.now }
    {
        if bytes.is_empty() {
            return Ok(None);
        }
        let Some(order) = Order::of(bytes[0]) else {
            return Err(MsgError::Order);
        };
        if bytes.len() < 2 {
            return Ok(None);
        }
        let Some(kind) = Kind::of(bytes[1]) else {
            return Err(MsgError::Kind);
        };
        if bytes.len() < 4 {
            return Ok(None);
        }
        if bytes[3] != VERSION {
            return Err(MsgError::Version);
        }
        if bytes.len() < 12 {
            return Ok(None);
        }
        let serial = order.word([bytes[8], bytes[9], bytes[10], bytes[11]]);
        if serial == 0 {
            return Err(MsgError::Serial);
        }
        if bytes.len() < FIXED_LEN {
            return Ok(None);
        }
        let fixed = Fixed {
            order,
            kind,
            flags: bytes[2],
            body_len: order.word([bytes[4], bytes[5], bytes[6], bytes[7]]),
            serial,
            fields_len: order.word([bytes[12], bytes[13], bytes[14], bytes[15]]),
        };
        if fixed.fields_len > MAX_ARRAY_LEN {
            return Err(MsgError::ArrayLength);
        }
        if fixed.whole_len() > MAX_MESSAGE_LEN {
            return Err(MsgError::TooLarge);
        }
        Ok(Some(fixed))
    }

    /// The length of the whole message.
    pub(crate) fn whole_len(&self) -> u64
        requires { self.now.fields_len ≤ 67108864 }
        ensures { result ≡ 16 + self.now.fields_len + padding 8 self.now.fields_len + self.now.body_len }
    {
        let fields_len = self.fields_len as usize;
        let body_len = u64::from(self.body_len);
        (FIXED_LEN + fields_len + padding(8, fields_len)) as u64 + body_len
    }
}
