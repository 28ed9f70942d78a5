// What the bus says of itself.

/// The name of the bus itself (D-Bus Specification, "Message Bus Specification").
pub const BUS_NAME: &str = "org.freedesktop.DBus";

/// The bus's GUID, and the machine's id where there is one, each as 32 hexadecimal digits; and the number of the user that
/// each client runs as, and the bus too, where no other gets in.
#[derive(Clone, Copy, Debug)]
pub struct Identity {
    pub guid: [u8; 32],
    pub machine_id: Option<[u8; 32]>,
    pub user: Option<u32>,
}
