// A line that comes byte by byte.

ghost use Rattle.std.specs.Prelude.{◌≡◌, ◌==◌, ◌&&◌, ◌+◌, ◌-◌, ◌<◌, ◌≤◌, ◌++◌, [], ◌∷◌, ℕ, List, length, take, drop};
ghost use Rattle.auth.specs.Lines.{lf, pieces_of};
ghost use Rattle.auth.specs.LineStates.{whole_piece, ends_in_cr, LineIs};

use arrayvec::ArrayVec;

/// How many bytes a line may have, its CR LF among them.
pub(crate) const MAX_LINE_LEN: usize = 1024;

/// How far a line has come.
#[derive(Clone, Copy, Debug, PartialEq, Eq)]
pub(crate) enum LineState {
    /// All bytes were taken, and its end isn't there.
    Open,
    /// Its CR LF was taken.
    Ended,
    /// It has as many bytes as a line may have, and doesn't end with CR LF.
    Full,
}

/// Adds bytes to a line, through its end where it is among them. It gives how many bytes were taken.
pub(crate) fn add(line: &mut ArrayVec<u8, MAX_LINE_LEN>, bytes: &[u8]) -> (usize, LineState)
    requires open_line { pieces_of line.old.items ≡ whole_piece line.old.items }
    requires room { length line.old.items < MAX_LINE_LEN }
    ensures taken { result.0 ≤ length bytes.now }
    ensures line { line.new.items ≡ line.old.items ++ take result.0 bytes.now }
    ensures state { LineIs result.1 line.new.items result.0 (length bytes.now) }
{
    for (i, byte) in bytes.iter().enumerate() {
        let ends = is_line_end(line.as_slice(), *byte);
        line.push(*byte);
        if ends {
            return (i + 1, LineState::Ended);
        }
        if line.len() == MAX_LINE_LEN {
            return (i + 1, LineState::Full);
        }
    }
    (bytes.len(), LineState::Open)
}

/// Whether the byte after these is the LF of a line end.
fn is_line_end(line: &[u8], byte: u8) -> bool
    ensures { result ≡ (byte == lf && ends_in_cr line.now) }
{
    byte == b'\n' && ends_in_cr(line)
}

fn ends_in_cr(line: &[u8]) -> bool
    ensures { result ≡ ends_in_cr line.now }
{
    !line.is_empty() && line[line.len() - 1] == b'\r'
}

/// A line without its CR LF.
pub(crate) fn without_end(line: &[u8]) -> &[u8]
    requires { 2 ≤ length line.now }
    ensures { result.now ≡ take (length line.now - 2) line.now }
{
    &line[..line.len() - 2]
}
