// What the system has none left of.

use std::io;

/// The system's numbers for a process, and a system, that has no descriptor left (errno(3): EMFILE, ENFILE).
const NO_DESCRIPTOR: [i32; 2] = [24, 23];

/// Whether a call failed since no descriptor was left.
pub fn is_of_descriptors(error: &io::Error) -> bool {
    match error.raw_os_error() {
        Some(number) => NO_DESCRIPTOR.contains(&number),
        None => false,
    }
}
