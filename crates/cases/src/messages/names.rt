// Names and signatures.

use case_files::{Fields, Judge, LineError};
use signature::{
    Signature, check_bus_name, check_interface, check_member, check_namespace, check_path,
};
use std::alloc::Global;

/// A form of names and a text: whether the text has that form.
pub(crate) struct Names;

impl Judge for Names {
    const INPUTS: usize = 2;

    fn came(&self, alloc: Global, inputs: &Fields) -> Result<String, LineError> {
        let text = inputs.text(1)?;
        let is_valid = match inputs.text(0)? {
            "path" => check_path(text),
            "interface" => check_interface(text),
            "member" => check_member(text),
            "bus name" => check_bus_name(text),
            "namespace" => check_namespace(text),
            _ => return Err(LineError::Unreadable),
        };
        let word = if is_valid { "yes" } else { "no" };
        Ok(String::from_str(alloc, word)?)
    }
}

/// A text: `ok`, or why it is no signature.
pub(crate) struct Signatures;

impl Judge for Signatures {
    const INPUTS: usize = 1;

    fn came(&self, alloc: Global, inputs: &Fields) -> Result<String, LineError> {
        let word = match Signature::read(inputs.bytes(0)?) {
            Ok(_) => "ok",
            Err(fault) => fault.name(),
        };
        Ok(String::from_str(alloc, word)?)
    }
}
