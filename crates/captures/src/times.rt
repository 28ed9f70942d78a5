// What the times of a pcapng interface count.

ghost use Rattle.std.specs.Prelude.{◌≡◌, ◌+◌, ◌≤◌, length};
ghost use Rattle.captures.specs.Numbers.{half};
ghost use Rattle.captures.specs.Options.{after_option, usual, times_from, nanoseconds_in};

use crate::error::CaptureError;
use crate::options::{END_OF_OPTIONS, OFFSET, OPTION_HEADER_LEN, RESOLUTION, padded_len, units_of};
use crate::order::Order;
use crate::pcap::NANOS_PER_SECOND;

/// Microseconds, which times count where no option says.
pub(crate) const MICROSECONDS: u8 = 6;

/// The resolution of an interface's times, and whether they have an offset.
#[derive(Clone, Copy, Debug, Default, PartialEq, Eq)]
pub struct Times {
    pub resolution: u8,
    pub are_offset: bool,
}

impl Times {
    /// What the option at the front of a list says of the times.
    fn after_option(self, order: Order, options: &[u8]) -> Result<Times, CaptureError>
        requires { OPTION_HEADER_LEN + half order options.now 2 ≤ length options.now }
        ensures { result ≡ after_option order options.now self }
    {
        match order.half(options, 0) {
            RESOLUTION => {
                if order.half(options, 2) != 1 {
                    return Err(CaptureError::Resolution);
                }
                Ok(Times {
                    resolution: options[OPTION_HEADER_LEN],
                    are_offset: self.are_offset,
                })
            }
            OFFSET => Ok(Times {
                resolution: self.resolution,
                are_offset: true,
            }),
            _ => Ok(self),
        }
    }

    /// The times that a list of options describes.
    pub(crate) fn of(order: Order, options: &[u8]) -> Result<Times, CaptureError>
        ensures { result ≡ times_from order usual 0 options.now }
    {
        let mut times = Times {
            resolution: MICROSECONDS,
            are_offset: false,
        };
        let mut rest = options;
        while rest.len() >= OPTION_HEADER_LEN {
            if order.half(rest, 0) == END_OF_OPTIONS {
                return Ok(times);
            }
            let len = order.half(rest, 2) as usize;
            if rest.len() < OPTION_HEADER_LEN + len {
                return Err(CaptureError::OptionLength);
            }
            match times.after_option(order, rest) {
                Ok(after) => times = after,
                Err(fault) => return Err(fault),
            }
            let next = OPTION_HEADER_LEN + padded_len(len);
            if rest.len() < next {
                return Ok(times);
            }
            rest = rest.split_at(next).1;
        }
        Ok(times)
    }

    /// A time in nanoseconds since 1970, if it is known and fits.
    pub(crate) fn nanoseconds(self, high: u32, low: u32) -> Option<u64>
        ensures { result ≡ nanoseconds_in self high low }
    {
        if self.are_offset {
            return None;
        }
        let units = units_of(self.resolution)?;
        let ticks = (high as u64) * 0x1_0000_0000 + low as u64;
        let nanoseconds = ticks as u128 * NANOS_PER_SECOND as u128 / units as u128;
        match u64::try_from(nanoseconds) {
            Ok(nanoseconds) => Some(nanoseconds),
            Err(_) => None,
        }
    }
}
