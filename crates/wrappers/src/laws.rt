//! Laws of kernel calls.
ghost use Rattle.std.specs.Prelude.{ℕ, ◌<◌, ◌≤◌};
ghost use Rattle.sd_base.specs.declared.actors.Who.{Who as Caller};
ghost use Rattle.sd_base.specs.History.{History};
ghost use Rattle.byte_memory.specs.Tested.{Memory};
ghost use Rattle.device_model.specs.Scripted.{Scripted};
ghost use Rattle.checked_tree.specs.declared.kernel.KernelCall.{KernelCall as Call};
ghost use Rattle.wrappers.specs.InStep.{IsInStep};
ghost use Rattle.wrappers.specs.Rows.{served};

/// Whatever a driver's call comes to is in step with the history: the update that it makes, if any, is one that the history accepts, the clock stays, and the blocks that
/// the history grants to the driver are those of before and, where the answer is a pointer that is not null, behind them the one that it spans.
pub fn calls_are_in_step()
    ensures { (share : ℕ) (h : History) (memory : Memory) (devices : Scripted) (who : Caller) (call : Call) → 0 < who.owner → who.owner ≤ 4 → who.task ≤ 8
        → IsInStep share h who.owner (served share h memory devices who call) }
{}
