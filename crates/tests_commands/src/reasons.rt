// What is said to people of words and texts that were refused.

use crate::two_files::{S1, TwoFiles};
use captures::CaptureError;
use command_line::spread;
use dbusfan_tool::{capture_reason, reason_for};
use std::alloc::Global;
use std::process::Abort;

/// That this is said of words, divided by bars, where the message's file has this text.
fn expect<R: Abort>(rt: &R, alloc: Global, line: &str, message: &[u8], said: &str) {
    expect_of(rt, alloc, line, b"ret #1", message, said);
}

/// That this is said of words, divided by bars, where the program's file and the message's have these texts.
fn expect_of<R: Abort>(
    rt: &R,
    alloc: Global,
    line: &str,
    program: &[u8],
    message: &[u8],
    said: &str,
) {
    let words: Vec<&str> = line.split('|').collect(alloc).expect(rt, "memory");
    let mut files = TwoFiles::new(program, message);
    match reason_for(alloc, words.as_slice(), &mut files) {
        Ok(Some(reason)) => assert_eq!(rt; reason.as_str(), said, "at {line}"),
        Ok(None) => assert_eq!(rt; "", said, "at {line}"),
        Err(_) => panic!(rt; "no memory"),
    }
}

#[test]
fn rules(rt: HostRuntime) {
    for (line, said) in [
        (
            "compile|type='signal',path='/a",
            "rule, at 14: the value of path isn't closed",
        ),
        (
            "match|arg0='a,b',colour='red',path='/a|F",
            "rule, at 11: there is no key colour",
        ),
        (
            "compile|member='a',member='b'",
            "rule, at 11: member is given twice",
        ),
        (
            "match|path='/a',path_namespace='/b'|F",
            "rule, at 10: path and path_namespace exclude one another",
        ),
        (
            "compile|interface='a'",
            "rule, at 0: this is no value of interface",
        ),
    ] {
        expect(&rt, rt.alloc(), line, b"", said);
    }
}

#[test]
fn filters(rt: HostRuntime) {
    for (line, said) in [
        (
            "compile|--filter|member 5",
            "filter, at 7: an operator is wanted after member",
        ),
        (
            "match|F|--filter|member = c or d",
            "filter, at 14: no test begins with d",
        ),
        (
            "match|F|--filter|member = a.b",
            "filter, at 9: a value that fits is wanted after =",
        ),
        (
            "compile|--filter|(signal)(call)",
            "filter, at 8: and, or, or the end is wanted after (signal)",
        ),
        (
            "compile|--filter|path = '/a b' signal",
            "filter, at 7: a value that fits is wanted after =",
        ),
        (
            "compile|--filter|arg0 = 'a b' signal",
            "filter, at 13: and, or, or the end is wanted",
        ),
        (
            "compile|--filter|arg64 = 1",
            "filter, at 0: arg64 isn't of one of the arguments 0 to 63",
        ),
        ("compile|--filter|", "filter, at 0: a test is wanted"),
        ("match|F|--filter|signal", ""),
    ] {
        expect(&rt, rt.alloc(), line, S1.as_bytes(), said);
    }
}

#[test]
fn texts(rt: HostRuntime) {
    let alloc = rt.alloc();
    let line = "match|member='c'|F";
    let no_digit = "F, line 2, column 3: not a hexadecimal digit";
    expect(&rt, alloc, line, b"6c 0\n 4g", no_digit);
    expect(
        &rt,
        alloc,
        line,
        b"6c0",
        "F: the last byte has one digit alone",
    );
    expect(&rt, alloc, line, S1.as_bytes(), "");
}

/// The header of a pcap file of 2.4 whose packets are of the link type with this number, in its first bytes.
fn header(link_type: u8) -> [u8; 24] {
    [
        0xd4, 0xc3, 0xb2, 0xa1, 2, 0, 4, 0, 0, 0, 0, 0, 0, 0, 0, 0, 0, 0, 4, 0, link_type, 0, 0, 0,
    ]
}

#[test]
fn captures(rt: HostRuntime) {
    let alloc = rt.alloc();
    let ends = "F: it ends in the middle of a header, a packet or a block";
    let other = "F: its packets are of link type 1, D-Bus messages of 231";
    for line in ["match|member='c'|F", "run|P|F", "match|member='c'|F|--each"] {
        expect(&rt, alloc, line, &header(231), "");
        expect(&rt, alloc, line, &header(1), other);
        expect(
            &rt,
            alloc,
            line,
            b"\xd4\xc3\xb2\xa1\x02\0\x04\0\0\0\0\0",
            ends,
        );
    }
    let no_capture = "F: it's neither pcap nor pcapng";
    expect(&rt, alloc, "run|P|F|--each", S1.as_bytes(), no_capture);
    expect(&rt, alloc, "match|member='c'|-|--each", b"6c04", "");
}

/// That this is said of a capture with a fault.
fn expect_of_capture<R: Abort>(rt: &R, alloc: Global, fault: CaptureError, said: &str) {
    match capture_reason(alloc, "F", fault) {
        Ok(reason) => assert_eq!(rt; reason.as_str(), said, "at {fault}"),
        Err(_) => panic!(rt; "no memory"),
    }
}

#[test]
fn faults_of_captures(rt: HostRuntime) {
    for (fault, said) in [
        (
            CaptureError::Version,
            "F: its version isn't 2.4 of pcap, or 1.0 or 1.2 of pcapng",
        ),
        (
            CaptureError::Interface,
            "F: a packet is of an interface that isn't described",
        ),
    ] {
        expect_of_capture(&rt, rt.alloc(), fault, said);
    }
}

#[test]
fn messages(rt: HostRuntime) {
    for (text, said) in [
        ("6c", "F: the bytes end before the message does"),
        ("6d040001", "F: the first byte is neither l nor B"),
        ("6c040002", "F: the version of the protocol isn't 1"),
    ] {
        expect(&rt, rt.alloc(), "match||F", text.as_bytes(), said);
        expect(&rt, rt.alloc(), "run|P|F", text.as_bytes(), said);
    }
}

#[test]
fn programs(rt: HostRuntime) {
    let alloc = rt.alloc();
    for (program, said) in [
        (
            "ret #1\nnonsense",
            "P, line 2: this isn't a line of a program; see dbusfan-filter(7)",
        ),
        (
            "ja there\nret #1",
            "P, line 1: a label names no instruction that it may name",
        ),
    ] {
        for line in ["asm|P", "check|P", "run|P|F"] {
            expect_of(&rt, alloc, line, program.as_bytes(), b"", said);
        }
    }
    for (program, said) in [
        ("", "P: there is no instruction"),
        (
            "ld #1",
            "P, instruction 0: the last instruction has to be a return",
        ),
        ("div #0\nret #1", "P, instruction 0: it divides by 0"),
        (
            "ld #1\nld M[0]\nret a",
            "P, instruction 1: a way to it does not store the scratch word that it reads",
        ),
    ] {
        expect_of(&rt, alloc, "check|P", program.as_bytes(), b"", said);
        expect_of(&rt, alloc, "run|P|F", program.as_bytes(), b"", said);
        // `asm` takes what is refused, too.
        expect_of(&rt, alloc, "asm|P", program.as_bytes(), b"", "");
    }
}

#[test]
fn files(rt: HostRuntime) {
    let said = "X: it isn't there, or can't be read";
    for line in ["match||X", "run|X|F", "run|P|X", "check|X", "asm|X"] {
        expect(&rt, rt.alloc(), line, b"", said);
    }
}

#[test]
fn words_of_no_row(rt: HostRuntime) {
    for (line, said) in [
        (
            "match|--nonsense|a|F",
            "unexpected argument '--nonsense' found; see dbusfan match --help",
        ),
        (
            "match",
            "the following required arguments were not provided: <RULE> <FILE>; see dbusfan match --help",
        ),
        (
            "match|--filter|signal",
            "the following required arguments were not provided: <FILE>; see dbusfan match --help",
        ),
        (
            "match|--filter|signal|member='c'|F",
            "unexpected argument 'F' found; see dbusfan match --help",
        ),
        (
            "match|--owns=1|a|F",
            "unexpected value '1' for '--owns' found; no more were expected; see dbusfan match --help",
        ),
        (
            "run|P|F|--edition|3",
            "--edition 3: 1 or 2 is wanted; see dbusfan run --help",
        ),
        (
            "nonsense",
            "unrecognized subcommand 'nonsense'; see dbusfan --help",
        ),
    ] {
        expect(&rt, rt.alloc(), line, b"", said);
    }
}

#[test]
fn values_after_an_equals_sign(rt: HostRuntime) {
    let words = ["run", "--edition=2", "--each=no", "P", "--", "--a=b"];
    let wanted = ["run", "--edition", "2", "--each=no", "P", "--", "--a=b"];
    match spread(rt.alloc(), &words) {
        Ok(found) => assert_eq!(rt; found.as_slice(), wanted.as_slice()),
        Err(_) => panic!(rt; "no memory"),
    }
}
