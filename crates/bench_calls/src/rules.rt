// Rules, and the programs that they are compiled to.

use bpf_code::encode;
use match_rule::Rule;
use message_view::View;
use rule_compile::compile;
use std::alloc::Global;

/// The rule of a text.
fn rule_of(alloc: Global, text: &[u8]) -> Option<Rule> {
    let text = str::from_utf8(text).ok()?;
    Rule::read(alloc, text).ok()
}

/// Tests plainly whether a rule holds of a message, as often as `turns` says: how often it does. Nobody owns the rule's
/// sender name.
#[unsafe(no_mangle)]
pub extern "C" fn bench_rules_hold(alloc: Global, text: &[u8], message: &[u8], turns: u32) -> u64 {
    let Some(rule) = rule_of(alloc, text) else {
        return 0;
    };
    let Ok(view) = View::read(message) else {
        return 0;
    };
    let mut count = 0u64;
    for _turn in 0..turns {
        if rule.holds(&view, false) {
            count = count.wrapping_add(1);
        }
    }
    count
}

/// The bytes of the program of a rule.
fn program_of(alloc: Global, text: &[u8]) -> Option<Vec<u8>> {
    let rule = rule_of(alloc, text)?;
    let slot = match rule.sender_name() {
        Some(_) => Some(0),
        None => None,
    };
    let program = compile(alloc, &rule, slot).ok()?;
    encode(alloc, program.code()).ok()
}

/// Writes the program of a rule, eight bytes an instruction, if there is room, and answers its length.
#[unsafe(no_mangle)]
pub extern "C" fn bench_rules_compile(alloc: Global, text: &[u8], room: &mut [u8]) -> usize {
    let Some(bytes) = program_of(alloc, text) else {
        return 0;
    };
    if room.len() < bytes.len() {
        return 0;
    }
    room[..bytes.len()].copy_from_slice(bytes.as_slice());
    bytes.len()
}
