// The machine's id.

use crate::guid::Guid;
use std::fs;
use std::rt::Files;

/// Where the id of the machine may stand, as 32 hexadecimal digits (machine-id(5), and the D-Bus Specification's
/// "UUIDs").
const PLACES: [&str; 2] = ["/etc/machine-id", "/var/lib/dbus/machine-id"];

/// The machine's id, where it has one.
pub(crate) fn machine_id<R: Files + Alloc>(rt: &R) -> Option<[u8; 32]> {
    for place in PLACES {
        if let Ok(text) = fs::read_to_string(rt, place) {
            if let Some(id) = Guid::read(text.as_str().trim_end()) {
                return Some(id.digits);
            }
        }
    }
    None
}
