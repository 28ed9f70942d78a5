// Texts that are drawn on a terminal in place of what stood there.

ghost use Rattle.std.specs.Prelude.{◌≡◌, ◌++◌, IfOk, OnOk};
ghost use Rattle.watch_command.specs.Screens.{drawn_byte, room_after, drawn, frame};

use crate::style::{Device, can_redraw, columns, number_by};
use std::alloc::{AllocError, Global};
use std::rt::Env;

/// How many lines a terminal has, where the environment doesn't say it.
const LINES: usize = 24;

/// From here on text is drawn from the first column of the first line on (ECMA-48, 8.3.21, CUP).
const HOME: &[u8] = b"\x1b[H";

/// Erases the rest of a line (ECMA-48, 8.3.41, EL), and ends it.
const LINE_END: &[u8] = b"\x1b[K\n";

/// Erases what stands below (ECMA-48, 8.3.39, ED).
const END: &[u8] = b"\x1b[J";

/// How many lines and columns a terminal has.
#[derive(Clone, Copy)]
pub(crate) struct Screen {
    lines: usize,
    columns: usize,
}

impl Screen {
    /// The screen that standard output is, if it is one. Its size is that of the variables LINES and COLUMNS.
    pub(crate) fn of<R: Env + AllocGlobal>(rt: &R, device: Device) -> Option<Screen> {
        if !can_redraw(rt, device) {
            return None;
        }
        Some(Screen {
            lines: number_by(rt, "LINES", 3).unwrap_or(LINES),
            columns: columns(rt),
        })
    }

    /// How many lines have room below a head, and above the line where the terminal goes on.
    pub(crate) fn room(self) -> usize {
        self.lines.saturating_sub(2)
    }

    /// What draws a text of lines in place of all that stands on the screen.
    pub(crate) fn frame(self, alloc: Global, text: &str) -> Result<Vec<u8>, AllocError> {
        frame(alloc, self.columns, text.as_bytes())
    }
}

/// What draws a text of lines on a terminal of some columns, in place of all that stands there.
fn frame(alloc: Global, columns: usize, text: &[u8]) -> Result<Vec<u8>, AllocError>
    ensures { IfOk result (λ shown. shown.items ≡ frame columns text.now) }
{
    let mut shown = Vec::from_slice(alloc, HOME)?;
    put_drawn(&mut shown, columns, text)?;
    shown.extend_from_slice(END)?;
    Ok(shown)
}

/// Adds lines, each as far as it has room.
fn put_drawn(shown: &mut Vec<u8>, columns: usize, text: &[u8]) -> Result<(), AllocError>
    ensures { OnOk result (shown.new.items ≡ shown.old.items ++ drawn columns columns text.now) }
{
    let mut room = columns;
    for byte in text {
        put_byte(shown, room, *byte)?;
        room = room_after(columns, room, *byte);
    }
    Ok(())
}

/// Adds a byte, before which its line has this room.
fn put_byte(shown: &mut Vec<u8>, room: usize, byte: u8) -> Result<(), AllocError>
    ensures { OnOk result (shown.new.items ≡ shown.old.items ++ drawn_byte room byte) }
{
    if byte == b'\n' {
        shown.extend_from_slice(LINE_END)?;
    } else if room > 0 {
        shown.push(byte)?;
    }
    Ok(())
}

/// The room after a byte, of the line that it is on, or of the next.
fn room_after(columns: usize, room: usize, byte: u8) -> usize
    ensures { result ≡ room_after columns room byte }
{
    if byte == b'\n' {
        columns
    } else {
        room.saturating_sub(1)
    }
}
