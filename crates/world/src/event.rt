// What happens to the bus.

use program_table::Command;

/// What happens to the bus. A broadcast is a job, whose number is the place of its Begin among all events, from 0.
#[derive(Drop)]
pub enum Event {
    /// A command.
    Command(Command<()>),
    /// A broadcast begins: its sender, where None is the bus, and the bytes of its message.
    Begin(Option<u64>, Vec<u8>),
    /// The recipients of a job in one of 16 parts are asked for: the job, and the part from 1.
    Piece(u64, u32),
    /// All recipients of a job are asked for, and the job ends.
    End(u64),
}
