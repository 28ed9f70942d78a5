// What stands for a connection in the state.

ghost use Rattle.std.specs.Prelude.{◌≡◌, IfOk};

use std::alloc::AllocError;

/// What a state keeps of a connection's mailbox. A command lends it, and the state keeps a share.
pub trait Handle: Drop {
    /// Another handle, equal to this one.
    fn share(&self) -> Result<Self, AllocError>
        ensures { IfOk result (λ m. m ≡ self.now) };
}

impl Handle for () {
    fn share(&self) -> Result<(), AllocError> {
        Ok(())
    }
}
