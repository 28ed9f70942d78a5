//! Captures of D-Bus messages, as Wireshark, `busctl capture` and `dbus-monitor --pcap` write them.
#![tactic(auto)]

mod beginning;
mod block;
mod block_packet;
mod error;
mod interface;
mod laws;
mod magic;
mod options;
mod order;
mod packets;
mod pcap;
mod section;
mod step;
mod times;
mod writing;

pub use beginning::is_capture;
pub use block::MAX_BLOCK_LEN;
pub use error::CaptureError;
pub use laws::{ends_as_said, faults_stay, given_come_first, what_is_written_is_read};
pub use packets::{MAX_INTERFACES, Packets};
pub use pcap::{FILE_HEADER_LEN, RECORD_HEADER_LEN, TimeUnit};
pub use step::{LINKTYPE_DBUS, MAX_PACKET_LEN, Packet, Step};
pub use writing::{MAX_TIME, pcap_header, record_header};
