//! One event.
ghost use Rattle.std.specs.Prelude.{◌≡◌, ◌<◌, ◌≤◌, ◌↔◌, length, IfOk, OnErr, IsErrOf};
ghost use Rattle.scan_core.specs.Events.{seat_of, Lawful, May, after, tells};
ghost use Rattle.scan_core.specs.States.{shown, TakesClaim};

use crate::event::{ScanEvent, StepFault, Told};
use crate::state::ScanState;

/// Does one event, and answers what it tells its seat.
///
/// `NoSuchSeat` comes first, then `Unlawful`. Memory is taken only for a claim that is told a block.
pub fn step(state: &mut ScanState, event: ScanEvent) -> Result<Told, StepFault>
    ensures allowed { IfOk result (λ _. May (shown state.old) event) }
    ensures after { IfOk result (λ _. shown state.new ≡ after (shown state.old) event) }
    ensures told { IfOk result (λ told. told ≡ tells (shown state.old) event) }

    ensures no_such_seat { IsErrOf result StepFault.NoSuchSeat
        ↔ (length state.old.views ≤ seat_of event) }
    ensures unlawful { IsErrOf result StepFault.Unlawful
        ↔ ((seat_of event < length state.old.views) × ¬ Lawful (shown state.old) event) }
    ensures out_of_memory { IsErrOf result StepFault.OutOfMemory
        → TakesClaim (shown state.old) event }
    ensures err { OnErr result (shown state.new ≡ shown state.old) }
{
    state.play(event)
}
