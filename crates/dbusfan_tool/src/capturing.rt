// What a judge says of each message of a capture.

ghost use Rattle.std.specs.Prelude.{◌≡◌, ◌≤◌, ◌++◌, ℕ, Bool, true, List, [], length, drop, IfOk, MatchResult, string_bytes};
ghost use Rattle.captures.specs.Contents.{message_in};
ghost use Rattle.command_line.specs.Files.{Content, Begun};
ghost use Rattle.command_line.specs.Output.{PutsParts};
ghost use Rattle.dbusfan_tool.specs.declared.finding.Finding.{Finding};
ghost use Rattle.dbusfan_tool.specs.declared.wording.Wording.{Wording};
ghost use Rattle.dbusfan_tool.specs.Judges.{Judge};
ghost use Rattle.dbusfan_tool.specs.Serving.{Serves};
ghost use Rattle.dbusfan_tool.specs.Findings.{IsFinding, Report, Reports};
ghost use Rattle.dbusfan_tool.specs.Tallies.{IsTally};
ghost use Rattle.dbusfan_tool.specs.CaptureSteps.{IsAt, TakesTo, TakesWithin, so_far};
ghost use Rattle.dbusfan_tool.specs.FirstBytes.{EndsCapture, BreaksCapture};

use crate::beginning::Beginning;
use crate::finding::Finding;
use crate::program_judge::ProgramJudge;
use crate::tally::Tally;
use captures::{CaptureError, Packet, Packets, Step};
use command_line::{Fault, Files, Output, Writer};
use message_view::View;
use std::alloc::{AllocError, Global};

/// What is found of a capture, and the fault that ends it.
#[derive(Drop)]
pub(crate) struct CaptureEnd {
    pub(crate) tally: Tally,
    pub(crate) fault: Option<CaptureError>,
}

/// How far the packets of some bytes were taken.
#[derive(Clone, Copy)]
pub(crate) enum Taken {
    /// As many bytes as these: more have to be there for the next.
    Until(usize),
    /// To a fault.
    Faulty(CaptureError),
}

/// What a judge says of each message of a capture, of which some bytes were read, and more can be if it is still open.
/// The lines of the messages are written as they are found. No more of the file is kept than a block, or a packet with its
/// header, and one piece. A fault may come after some of the lines; where `out` has failed it says nothing.
pub(crate) fn judge_capture<F: Files, O: Writer>(
    alloc: Global,
    program_judge: &ProgramJudge,
    each: bool,
    files: &mut F,
    beginning: Beginning,
    out: &mut Output<O>,
) -> Result<CaptureEnd, Fault>
    ensures { (judge : Judge) (before : F) (name : List ℕ) → Serves judge program_judge.now → F.gives before name (so_far beginning.is_open beginning.bytes.items) files.old
        → (written : List ℕ) × PutsParts O.takes O.flushes O.may_fail out.old out.new written
        × MatchResult result (EndsCapture judge program_judge.now.words each beginning written (λ content. F.gives before name content files.new)) (BreaksCapture judge program_judge.now.words each written (λ content. F.gives before name content files.new)) }
{
    let mut packets = Packets::new();
    let mut tally = Tally::new(alloc, program_judge.words, each);
    let Beginning {
        mut bytes,
        mut is_open,
    } = beginning;
    for _ in 0..u64::MAX {
        let taken = take_packets(alloc, program_judge, &mut packets, &bytes, &mut tally)?;
        tally.put_lines(out);
        let len = match taken {
            Taken::Until(len) => len,
            Taken::Faulty(fault) => {
                return Ok(CaptureEnd {
                    tally,
                    fault: Some(fault),
                });
            }
        };
        if out.has_failed {
            return Err(Fault::Memory);
        }
        bytes = left_after(alloc, bytes, len)?;
        if !is_open {
            let fault = packets.end(&bytes).err();
            return Ok(CaptureEnd { tally, fault });
        }
        is_open = files.read_piece(&mut bytes)?;
    }
    Err(Fault::Memory)
}

/// The bytes after the first `len` of some.
fn left_after(alloc: Global, bytes: Vec<u8>, len: usize) -> Result<Vec<u8>, AllocError>
    requires { len ≤ length bytes.items }
    ensures { IfOk result (λ left. left.items ≡ drop len bytes.items) }
{
    if len == 0 {
        return Ok(bytes);
    }
    Vec::from_slice(alloc, after(&bytes, len))
}

/// Takes the packets that bytes begin with.
fn take_packets(
    alloc: Global,
    program_judge: &ProgramJudge,
    packets: &mut Packets,
    bytes: &[u8],
    tally: &mut Tally,
) -> Result<Taken, AllocError>
    ensures within { IfOk result (TakesWithin bytes.now) }
    ensures takes { IfOk result (λ taken. (judge : Judge) (words : Wording) (each : Bool) (came written : List ℕ) (found : List Finding) (passed : ℕ) → Serves judge program_judge.now
        → IsTally words each tally.old written found passed → IsAt judge came found passed packets.old bytes.now
        → TakesTo judge words each came written bytes.now packets.new tally.new taken) }
{
    let mut taken = 0;
    loop {
        let rest = after(bytes, taken);
        match packets.next(rest) {
            Ok(Step::Message(packet)) => {
                let finding = finding_of(alloc, program_judge, packet, rest)?;
                tally.take(finding)?;
                taken += packet.len;
            }
            Ok(Step::Other { len, .. }) => {
                tally.pass_over()?;
                taken += len;
            }
            Ok(Step::Skip(len)) => taken += len,
            Ok(Step::More(_)) => return Ok(Taken::Until(taken)),
            Err(fault) => return Ok(Taken::Faulty(fault)),
        }
    }
}

/// What a judge says of a packet.
fn finding_of(
    alloc: Global,
    program_judge: &ProgramJudge,
    packet: Packet,
    bytes: &[u8],
) -> Result<Finding, AllocError>
    requires in_order { packet.start ≤ packet.end }
    requires there { packet.end ≤ length bytes.now }
    ensures { IfOk result (λ finding. (judge : Judge) → Serves judge program_judge.now → IsFinding judge (message_in packet bytes.now) finding) }
{
    if packet.is_cut {
        return Ok(Finding::Cut);
    }
    match View::read(packet.message(bytes)) {
        Ok(message) => {
            let judgement = program_judge.judge(alloc, &message)?;
            Ok(Finding::Judged(judgement))
        }
        Err(fault) => Ok(Finding::NoMessage(fault)),
    }
}

/// The bytes after the first `len`.
fn after(bytes: &[u8], len: usize) -> &[u8]
    requires { len ≤ length bytes.now }
    ensures { result.now ≡ drop len bytes.now }
{
    bytes.split_at(len).1
}
