// The numbers and the names of faults and errors, and that each prints its name. A contract says what is written where
// `fmt` answers `Ok`, and none can say that it does: std's formatter tells nothing of an `Err`.

use message_build::{BuildError, StampError};
use message_view::MsgError;
use signature::SigError;
use std::alloc::Global;
use std::fmt::Display;
use std::process::Abort;

pub(crate) fn expect_printed<R: Abort, D: Display + Drop>(
    rt: &R,
    alloc: Global,
    error: D,
    name: &str,
) {
    let printed = error.to_string(alloc).expect(rt, "memory");
    assert_eq!(rt; printed.as_str(), name);
}

#[test]
fn faults_of_messages(rt: HostRuntime) {
    let faults = [
        (MsgError::Order, 1, "Order"),
        (MsgError::Kind, 2, "Kind"),
        (MsgError::Version, 3, "Version"),
        (MsgError::Serial, 4, "Serial"),
        (MsgError::TooLarge, 5, "TooLarge"),
        (MsgError::FieldCode, 6, "FieldCode"),
        (MsgError::FieldType, 7, "FieldType"),
        (MsgError::FieldTwice, 8, "FieldTwice"),
        (MsgError::FieldMissing, 9, "FieldMissing"),
        (MsgError::BadName, 10, "BadName"),
        (MsgError::Padding, 11, "Padding"),
        (MsgError::BadBool, 12, "BadBool"),
        (MsgError::BadText, 13, "BadText"),
        (MsgError::BadSignature, 14, "BadSignature"),
        (MsgError::ArrayLength, 15, "ArrayLength"),
        (MsgError::Depth, 16, "Depth"),
        (MsgError::Short, 17, "Short"),
        (MsgError::Trailing, 18, "Trailing"),
        (MsgError::UnixFds, 19, "UnixFds"),
        (MsgError::Reserved, 20, "Reserved"),
    ];
    for (fault, number, name) in faults {
        assert_eq!(rt; fault.number(), number);
        assert_eq!(rt; fault.name(), name);
        expect_printed(&rt, rt.alloc(), fault, name);
    }
}

#[test]
fn faults_of_signatures(rt: HostRuntime) {
    let faults = [
        (SigError::TooLong, 1, "TooLong"),
        (SigError::UnknownCode, 2, "UnknownCode"),
        (SigError::ArrayDepth, 3, "ArrayDepth"),
        (SigError::StructDepth, 4, "StructDepth"),
        (SigError::EmptyStruct, 5, "EmptyStruct"),
        (SigError::BadDict, 6, "BadDict"),
        (SigError::Unfinished, 7, "Unfinished"),
    ];
    for (fault, number, name) in faults {
        assert_eq!(rt; fault.number(), number);
        assert_eq!(rt; fault.name(), name);
        expect_printed(&rt, rt.alloc(), fault, name);
    }
}

#[test]
fn errors_of_building_and_stamping(rt: HostRuntime) {
    for (error, name) in [
        (BuildError::Invalid, "Invalid"),
        (BuildError::TooLarge, "TooLarge"),
        (BuildError::NoMemory, "NoMemory"),
    ] {
        expect_printed(&rt, rt.alloc(), error, name);
    }
    for (error, number, name) in [
        (StampError::TooLarge, 1, "TooLarge"),
        (StampError::NoMemory, 2, "NoMemory"),
    ] {
        assert_eq!(rt; error.number(), number);
        expect_printed(&rt, rt.alloc(), error, name);
    }
}
