// The numbers of errors, and that each prints its name, and its line or place where it has one. A contract says what is
// written where `fmt` answers `Ok`, and none can say that it does: std's formatter tells nothing of an `Err`.

use crate::faults::expect_printed;
use bpf_code::CodeError;
use bpf_verify::VerifyError;
use jump_islands::LowerError;
use match_rule::RuleError;
use rule_compile::CompileError;

#[test]
fn errors_of_rules(rt: HostRuntime) {
    for (fault, number, name) in [
        (RuleError::TooLong, 1, "TooLong"),
        (RuleError::UnknownKey, 2, "UnknownKey"),
        (RuleError::KeyTwice, 3, "KeyTwice"),
        (RuleError::BadValue, 4, "BadValue"),
        (RuleError::Unquoted, 5, "Unquoted"),
        (RuleError::PathTwice, 6, "PathTwice"),
        (RuleError::ArgNumber, 7, "ArgNumber"),
        (RuleError::NoMemory, 8, "NoMemory"),
    ] {
        assert_eq!(rt; fault.number(), number);
        assert_eq!(rt; fault.name(), name);
        expect_printed(&rt, rt.alloc(), fault, name);
    }
    for (error, name) in [
        (CompileError::TooLong, "TooLong"),
        (CompileError::NoMemory, "NoMemory"),
    ] {
        expect_printed(&rt, rt.alloc(), error, name);
    }
}

#[test]
fn errors_of_code_and_lowering(rt: HostRuntime) {
    for (error, number, text) in [
        (CodeError::Length, 1, "Length"),
        (CodeError::Code(0), 2, "Code at 0"),
        (CodeError::Line(12), 3, "Line at 12"),
        (CodeError::Label(3), 4, "Label at 3"),
        (CodeError::FarJump(4095), 5, "FarJump at 4095"),
        (CodeError::NoMemory, 6, "NoMemory"),
    ] {
        assert_eq!(rt; error.number(), number);
        expect_printed(&rt, rt.alloc(), error, text);
    }
    for (error, number, name) in [
        (LowerError::TooMany, 1, "TooMany"),
        (LowerError::NoMemory, 2, "NoMemory"),
    ] {
        assert_eq!(rt; error.number(), number);
        assert_eq!(rt; error.name(), name);
        expect_printed(&rt, rt.alloc(), error, name);
    }
}

#[test]
fn errors_of_the_verifier(rt: HostRuntime) {
    let errors = [
        VerifyError::Empty,
        VerifyError::TooMany,
        VerifyError::Code(0),
        VerifyError::ZeroDivisor(0),
        VerifyError::Shift(0),
        VerifyError::Scratch(0),
        VerifyError::Jump(0),
        VerifyError::Last(0),
        VerifyError::Unset(0),
        VerifyError::Ancillary(0),
        VerifyError::NoMemory,
    ];
    for (place, error) in errors.iter().enumerate() {
        assert_eq!(rt; error.number() as usize, place + 1);
    }
    for (error, text) in [
        (VerifyError::Empty, "Empty"),
        (VerifyError::TooMany, "TooMany"),
        (VerifyError::Code(1), "Code at 1"),
        (VerifyError::Last(2), "Last at 2"),
        (VerifyError::Unset(40), "Unset at 40"),
    ] {
        expect_printed(&rt, rt.alloc(), error, text);
    }
}
