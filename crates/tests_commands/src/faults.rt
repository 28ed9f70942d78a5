// Each fault prints its name, and its line or place where it has one, as its line does. A contract says what is written
// where `fmt` answers `Ok`, and none can say that it does: std's formatter tells nothing of an `Err`.

use bpf_code::CodeError;
use bpf_verify::VerifyError;
use dbusfan_tool::Fault;
use filter::FaultAt;

// A fault prints what its line has between `dbusfan: ` and the end of the line.
#[test]
fn faults_and_their_lines(rt: HostRuntime) {
    let unknown_word = FaultAt {
        fault: filter::Fault::UnknownWord,
        place: 14,
    };
    for (fault, text) in [
        (Fault::Filter(unknown_word), "filter UnknownWord at 14"),
        (Fault::HeavyFilter, "filter TooHeavy"),
        (Fault::Code(CodeError::Line(1)), "code Line at 1"),
        (Fault::Code(CodeError::Length), "code Length"),
        (Fault::Program(VerifyError::Jump(7)), "program Jump at 7"),
        (Fault::Hex, "hex"),
        (Fault::Usage, "usage"),
        (Fault::File, "file"),
        (Fault::Memory, "memory"),
    ] {
        let printed = fault.to_string(rt.alloc()).expect(&rt, "memory");
        assert_eq!(rt; printed.as_str(), text);
        let line = fault.line();
        let words = line
            .as_str()
            .strip_prefix("dbusfan: ")
            .expect(&rt, "a line");
        assert_eq!(rt; words.strip_suffix('\n'), Some(text));
    }
}
