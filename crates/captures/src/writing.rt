// Files of the format pcap, as they are written here.

ghost use Rattle.std.specs.Prelude.{◌≡◌, ◌≤◌};
ghost use Rattle.captures.specs.Writing.{magic_bytes, header_bytes, record_bytes};

use crate::magic::{LITTLE_MICRO, LITTLE_NANO};
use crate::pcap::{
    FILE_HEADER_LEN, NANOS_PER_SECOND, RECORD_HEADER_LEN, TimeUnit, VERSION_MAJOR, VERSION_MINOR,
};
use crate::step::{LINKTYPE_DBUS, MAX_PACKET_LEN};

/// The latest time that a record has room for, in nanoseconds since 1970: the end of a second in 2106.
pub const MAX_TIME: u64 = 4_294_967_295_999_999_999;

/// The magic number of files whose fractions of seconds are of this unit, and whose lowest bytes come first.
fn magic_bytes(unit: TimeUnit) -> [u8; 4]
    ensures { result ≡ magic_bytes unit }
{
    match unit {
        TimeUnit::Micro => LITTLE_MICRO.to_be_bytes(),
        TimeUnit::Nano => LITTLE_NANO.to_be_bytes(),
    }
}

/// The header of a pcap file of D-Bus messages, whose times have this unit.
pub fn pcap_header(unit: TimeUnit) -> [u8; FILE_HEADER_LEN]
    ensures { result ≡ header_bytes unit }
{
    let [m0, m1, m2, m3] = magic_bytes(unit);
    let [a0, a1] = VERSION_MAJOR.to_le_bytes();
    let [i0, i1] = VERSION_MINOR.to_le_bytes();
    let [s0, s1, s2, s3] = MAX_PACKET_LEN.to_le_bytes();
    let [l0, l1, l2, l3] = LINKTYPE_DBUS.to_le_bytes();
    [
        m0, m1, m2, m3, a0, a1, i0, i1, 0, 0, 0, 0, 0, 0, 0, 0, s0, s1, s2, s3, l0, l1, l2, l3,
    ]
}

/// The header of the record of a message of `len` bytes, which come after it, seen at a time in nanoseconds since 1970.
pub fn record_header(unit: TimeUnit, time: u64, len: u32) -> [u8; RECORD_HEADER_LEN]
    requires { time ≤ MAX_TIME }
    ensures { result ≡ record_bytes unit time len }
{
    let seconds = (time / NANOS_PER_SECOND) as u32;
    let fraction = (time % NANOS_PER_SECOND / unit.nanoseconds()) as u32;
    let [s0, s1, s2, s3] = seconds.to_le_bytes();
    let [f0, f1, f2, f3] = fraction.to_le_bytes();
    let [l0, l1, l2, l3] = len.to_le_bytes();
    [
        s0, s1, s2, s3, f0, f1, f2, f3, l0, l1, l2, l3, l0, l1, l2, l3,
    ]
}
