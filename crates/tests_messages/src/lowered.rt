// Drafts, and how they are lowered.

ghost use Rattle.std.specs.Prelude.{◌≡◌, ◌<◌, length, OnOk};

use bpf_code::{Ins, Operand, Test};
use bpf_verify::verify;
use jump_islands::{Draft, Label, LowerError, SourceProgram, lower};
use std::alloc::Global;
use std::process::Abort;

fn ins(code: u16, jt: u8, jf: u8, k: u32) -> Ins {
    Ins { code, jt, jf, k }
}

/// `ja`.
const JUMP: u16 = 0x05;

/// `ld #0`.
const LOAD: Ins = Ins {
    code: 0x00,
    jt: 0,
    jf: 0,
    k: 0,
};

/// `ret #1`.
const RETURN: Ins = Ins {
    code: 0x06,
    jt: 0,
    jf: 0,
    k: 1,
};

/// `count` times `ld #0`.
fn fill(draft: &mut Draft, count: usize) -> Result<(), LowerError>
    ensures { OnOk result (draft.new.bound ≡ draft.old.bound) }
{
    for _ in 0..count {
        draft.push(LOAD)?;
    }
    Ok(())
}

/// `jeq #0` to a label, or on.
fn jump_if_zero<R: Abort>(rt: &R, draft: &mut Draft, to: Label)
    requires { to.number < length draft.old.bound }
    ensures { to.number < length draft.new.bound }
{
    let next = draft.label().expect(rt, "memory");
    draft
        .jump(Test::Equal, Operand::Constant, 0, to, next)
        .expect(rt, "memory");
    draft.bind(next);
}

/// `count` instructions, and after them the label's `ret #1`.
fn end<R: Abort>(rt: &R, draft: &mut Draft, count: usize, label: Label)
    requires { label.number < length draft.old.bound }
{
    fill(draft, count).expect(rt, "memory");
    draft.bind(label);
    draft.push(RETURN).expect(rt, "memory");
}

/// A conditional jump over `count` instructions.
fn jump_over<R: Abort>(rt: &R, alloc: Global, count: usize) -> Draft {
    let mut draft = Draft::new(alloc);
    let far = draft.label().expect(rt, "memory");
    jump_if_zero(rt, &mut draft, far);
    end(rt, &mut draft, count, far);
    draft
}

/// Four conditional jumps over `count` instructions, to one label.
fn four_jumps_over<R: Abort>(rt: &R, alloc: Global, count: usize) -> Draft {
    let mut draft = Draft::new(alloc);
    let far = draft.label().expect(rt, "memory");
    jump_if_zero(rt, &mut draft, far);
    jump_if_zero(rt, &mut draft, far);
    jump_if_zero(rt, &mut draft, far);
    jump_if_zero(rt, &mut draft, far);
    end(rt, &mut draft, count, far);
    draft
}

/// `count` instructions, the last of them a return.
fn straight<R: Abort>(rt: &R, alloc: Global, count: usize) -> Draft {
    let mut draft = Draft::new(alloc);
    fill(&mut draft, count.saturating_sub(1)).expect(rt, "memory");
    draft.push(RETURN).expect(rt, "memory");
    draft
}

/// The program of a draft, which has to be closed.
fn lower_draft<R: Abort>(rt: &R, alloc: Global, draft: &Draft) -> Result<Vec<Ins>, LowerError> {
    assert!(rt; draft.is_closed());
    lower(alloc, draft)
}

/// That a program is accepted, has this length and begins with these instructions.
fn expect_program<R: Abort>(
    rt: &R,
    program: Result<Vec<Ins>, LowerError>,
    len: usize,
    first: &[Ins],
) {
    let program = program.expect(rt, "a program");
    assert_eq!(rt; program.len(), len);
    assert!(rt; program.starts_with(first));
    assert!(rt; verify(program).is_ok());
}

/// How many jumps without a test a draft's program has, and how long it is.
fn islands<R: Abort>(rt: &R, alloc: Global, draft: &Draft) -> (usize, usize) {
    let program = lower_draft(rt, alloc, draft).expect(rt, "a program");
    let islands = program.iter().filter(|ins| ins.code == JUMP).count();
    (islands, program.len())
}

#[test]
fn far_jump(rt: HostRuntime) {
    let near = jump_over(&rt, rt.alloc(), 255);
    let program = lower_draft(&rt, rt.alloc(), &near);
    expect_program(&rt, program, 257, &[ins(0x15, 255, 0, 0)]);
    let far = jump_over(&rt, rt.alloc(), 256);
    let program = lower_draft(&rt, rt.alloc(), &far);
    let first = [ins(0x15, 0, 1, 0), ins(0x05, 0, 0, 256)];
    expect_program(&rt, program, 259, &first);
    assert_eq!(rt; islands(&rt, rt.alloc(), &far), (1, 259));
}

#[test]
fn shared_island(rt: HostRuntime) {
    let draft = four_jumps_over(&rt, rt.alloc(), 256);
    let (count, len) = islands(&rt, rt.alloc(), &draft);
    assert_eq!(rt; count, 1);
    assert!(rt; len <= 262);
    let program = lower_draft(&rt, rt.alloc(), &draft);
    expect_program(&rt, program, len, &[]);
}

/// A test whose one target is 256 instructions away, and the other one 255.
fn two_targets<R: Abort>(rt: &R, alloc: Global) -> Draft {
    let mut draft = Draft::new(alloc);
    let near = draft.label().expect(rt, "memory");
    let far = draft.label().expect(rt, "memory");
    draft
        .jump(Test::Above, Operand::Index, 7, far, near)
        .expect(rt, "memory");
    fill(&mut draft, 255).expect(rt, "memory");
    draft.bind(near);
    draft.push(LOAD).expect(rt, "memory");
    draft.bind(far);
    draft.push(RETURN).expect(rt, "memory");
    draft
}

/// Both targets are far once one of them is, where the other is 255 away.
#[test]
fn far_beside_far(rt: HostRuntime) {
    let draft = two_targets(&rt, rt.alloc());
    let program = lower_draft(&rt, rt.alloc(), &draft);
    let first = [
        ins(0x2d, 1, 0, 7),
        ins(0x05, 0, 0, 256),
        ins(0x05, 0, 0, 256),
    ];
    expect_program(&rt, program, 260, &first);
}

/// A source program, whose jumps carry distances: a conditional jump over 257 instructions, and a jump over 256.
fn with_distances<R: Abort>(rt: &R, alloc: Global) -> SourceProgram {
    let mut source = SourceProgram::new(alloc);
    source.put_plain(RETURN).expect(rt, "memory");
    for _ in 0..256 {
        source.put_plain(LOAD).expect(rt, "memory");
    }
    source.put_jump(256).expect(rt, "memory");
    source
        .put_branch(Test::Equal, Operand::Constant, 0, 257, 0)
        .expect(rt, "memory");
    source
}

#[test]
fn source_program(rt: HostRuntime) {
    let source = with_distances(&rt, rt.alloc());
    assert_eq!(rt; source.len(), 259);
    let first = [
        ins(0x15, 0, 1, 0),
        ins(0x05, 0, 0, 257),
        ins(0x05, 0, 0, 256),
    ];
    expect_program(&rt, source.lower(rt.alloc()), 260, &first);
}

#[test]
fn open_drafts(rt: HostRuntime) {
    let mut draft = Draft::new(rt.alloc());
    assert!(rt; draft.is_closed());
    let label = draft.label().expect(&rt, "memory");
    assert!(rt; draft.is_closed());
    draft.bind(label);
    draft.goto(label).expect(&rt, "memory");
    assert!(rt; !draft.is_closed());
    draft.bind(label);
    assert!(rt; draft.is_closed());
}

/// That a draft's program would have too many instructions.
fn expect_too_many<R: Abort>(rt: &R, alloc: Global, draft: &Draft) {
    assert_eq!(rt;
        lower_draft(rt, alloc, draft).err(),
        Some(LowerError::TooMany)
    );
}

#[test]
fn too_many(rt: HostRuntime) {
    let most = straight(&rt, rt.alloc(), 4096);
    let program = lower_draft(&rt, rt.alloc(), &most);
    expect_program(&rt, program, 4096, &[]);
    let more = straight(&rt, rt.alloc(), 4097);
    expect_too_many(&rt, rt.alloc(), &more);
    let island = jump_over(&rt, rt.alloc(), 4094);
    expect_too_many(&rt, rt.alloc(), &island);
}

/// A conditional jump over 256 instructions.
fn put_far_jump(draft: &mut Draft) -> Result<(), LowerError> {
    let far = draft.label()?;
    let next = draft.label()?;
    draft.jump(Test::Equal, Operand::Constant, 0, far, next)?;
    draft.bind(next);
    fill(draft, 256)?;
    draft.bind(far);
    draft.push(RETURN)
}

/// With little memory: want of it is NoMemory, and never a part of the program. To be run with one allocation after
/// another refused.
#[test]
fn lower_with_refusals(rt: HostRuntime) {
    let mut draft = Draft::new(rt.alloc());
    let put = put_far_jump(&mut draft);
    let program = match put {
        Ok(()) => lower_draft(&rt, rt.alloc(), &draft),
        Err(error) => Err(error),
    };
    match program {
        Ok(program) => assert_eq!(rt; program.len(), 259),
        Err(error) => assert_eq!(rt; error, LowerError::NoMemory),
    }
}
