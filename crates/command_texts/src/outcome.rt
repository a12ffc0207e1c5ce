//! What came of a family that was run to its end.

ghost use Rattle.std.specs.Prelude.{◌≡◌, ◌⊎◌, [], IfErr, IfOk};
ghost use Rattle.forest_model.specs.Forest.{finish};
ghost use Rattle.run_report.specs.Lines.{lines};
ghost use Rattle.run_report.specs.Report.{lines_of, told_box};
ghost use Rattle.board_ends.specs.Finishes.{Finishes};
ghost use Rattle.command_texts.specs.Text.{first_family};

use board_ends::Finish;
use fork_board::{Board, Pass};
use guest_files::Stop;
use run_report::Outcome;
use std::sync::Wait;
use world_core::Reason;

/// What came of a family, of which a pass has seen that it was stopped, that its root has ended, or that no machine makes a step any
/// more. Else than by a stop only memory can be wanting.
pub fn outcome_of<R: AllocGlobal + Wait>(
    rt: &R,
    board: Board,
    pass: Pass,
    end: Finish,
) -> Result<Outcome, Stop>
    requires board { pass.board ≡ board }
    requires ends { Finishes pass end }
    ensures lines { IfOk result (λ outcome. lines_of outcome ≡ lines told_box [] (finish (first_family pass.board.opening.first.value.machine))) }
    ensures stop { IfErr result (λ stop. stop ≡ Stop.Memory ⊎ (stop ≡ Stop.Wire) × (end ≡ Finish.Stopped Reason.Wire)) }
{
    match end.reason() {
        Some(Reason::Wire) => return Err(Stop::Wire),
        Some(Reason::Memory) => return Err(Stop::Memory),
        None => {}
    }
    match board.close(rt, pass).into_outcome(rt.alloc()) {
        Ok(Some(outcome)) => Ok(outcome),
        Ok(None) => unreachable!(),
        Err(_) => Err(Stop::Memory),
    }
}
