// Pieces of work, each done by a thread of its own.

ghost use Rattle.std.specs.Prelude.{◌≡◌, ◌+◌, ◌<◌, ◌≤◌, IfOk, IfErr};
ghost use Rattle.fan_out.specs.declared.error.FanError.TheVariants as errors;
ghost use Rattle.fan_out.specs.Joining.{AreJoined};

use crate::error::FanError;
use crate::marks::Marks;
use std::sync::Wait;
use std::thread;
use std::thread::{Promise, Scope, Threads};

/// Work in pieces, each of which marks connections.
pub(crate) trait Work: Sync {
    ghost use Rattle.std.specs.Prelude.{ℕ, ◌<◌, ◌≤◌, Bool, List};

    /// How many pieces there are.
    ghost pieces: { Self → ℕ };

    /// What a piece may mark.
    ghost finds: { Self → ℕ → List Bool → Type 0 };

    fn piece(&self, part: u32) -> Marks
        requires { (0 < part) × (part ≤ pieces self.now) }
        ensures { finds self.now part result.places };
}

/// A piece of work, as a thread runs it.
struct PieceOf<'s, W> {
    work: &'s W,
    part: u32,
}

impl<'s, W: Work> Promise<Marks> for PieceOf<'s, W> {
    ghost kept_by = { λ p marks. W.finds p.work.now p.part marks.places };
}

impl<'s, W> Drop for PieceOf<'s, W> {
    fn drop(self) {
        let PieceOf { work: _, part: _ } = self;
    }
}

/// The marks of the pieces from `part` on. Where a thread isn't started, those that were end first.
fn pieces_from<'s, E, W: Work, R: Threads>(
    rt: &R,
    scope: &Scope<'s, E>,
    work: &'s W,
    part: u32,
    of: u32,
) -> Result<Marks, FanError>
    requires from { (0 < part) × (part ≤ of + 1) }
    requires all { of ≡ W.pieces work.now }
    requires few { of ≤ 16 }
    ensures marks { IfOk result (λ marks. AreJoined (W.finds work.entry.now) part of marks.places) }
    ensures error { IfErr result (λ error. error ≡ errors.NotStarted) }
{
    if part > of {
        return Ok(Marks::new());
    }
    let Ok(worker) = scope.spawn_with(
        PieceOf { work, part },
        move || -> Marks
            requires { (0 < part) × (part ≤ W.pieces work.now) }
            ensures { W.finds work.entry.now part result.places }
        { work.piece(part) },
    ) else {
        return Err(FanError::NotStarted);
    };
    let later = pieces_from(rt, scope, work, part + 1, of);
    let mine = worker.join(rt);
    let mut marks = later?;
    marks.join(&mine);
    Ok(marks)
}

/// The marks of all pieces, each by a worker of its own.
pub(crate) fn all_pieces<W: Work, R: Threads + Wait>(
    rt: &R,
    work: &W,
    workers: u32,
) -> Result<Marks, FanError>
    requires all { workers ≡ W.pieces work.now }
    requires few { (0 < workers) × (workers ≤ 16) }
    ensures marks { IfOk result (λ marks. AreJoined (W.finds work.now) 1 workers marks.places) }
    ensures error { IfErr result (λ error. error ≡ errors.NotStarted) }
{
    thread::scope(
        thread::scope_env(),
        rt,
        |scope| -> Result<Marks, FanError>
            requires { (workers ≡ W.pieces work.now) × (0 < workers) × (workers ≤ 16) }
            ensures marks { IfOk result (λ marks. AreJoined (W.finds work.entry.now) 1 workers marks.places) }
            ensures error { IfErr result (λ error. error ≡ errors.NotStarted) }
        { pieces_from(rt, scope, work, 1, workers) },
    )
}
