// Reading messages.

ghost use Rattle.std.specs.Prelude.{◌<◌};

use message_view::View;

/// The sum of the serials of a stream's messages and of the lengths of their members. Each message has `len` bytes.
fn read_each(stream: &[u8], len: usize) -> u64
    requires { 0 < len }
{
    let mut sum = 0u64;
    for message in stream.chunks_exact(len) {
        if let Ok(view) = View::read(message) {
            let member = view.member().map_or(0, |name| name.len());
            sum = sum.wrapping_add(u64::from(view.serial()) + member as u64);
        }
    }
    sum
}

/// Reads each message of a stream as often as `turns` says. Each message has `len` bytes.
#[unsafe(no_mangle)]
pub extern "C" fn bench_messages_read(stream: &[u8], len: usize, turns: u32) -> u64 {
    if len == 0 {
        return 0;
    }
    let mut sum = 0u64;
    for _turn in 0..turns {
        sum = sum.wrapping_add(read_each(stream, len));
    }
    sum
}
