// Returns from a function.
ghost use Rattle.std.specs.Prelude.{IsOk, OnOk, IfOk, IfSome};
ghost use Rattle.vm_flow.specs.Answer.{GivesOrStops};
ghost use Rattle.vm_flow.specs.Return as returns;
ghost use Rattle.vm_stack.specs.Chain.{Chain, HasFrame, EndsInOwnStub, IsReady};

use crate::stop::FlowStop;
use vm_stack::{Stack, Stub};

/// Drops the current frame and takes the stub below it, or gives None where nothing is left.
#[inline(always)]
#[tactic(auto, using(crate::proofs::ReturnLemmas::taken_given))]
pub fn give_back(stack: &mut Stack) -> Result<Option<Stub>, FlowStop>
    ensures ok { GivesOrStops (returns.given_back stack.old) stack.new result }

    // frames in a chain are never Underflow
    ensures chain { Chain stack.old → IsOk result }
    ensures kept { Chain stack.old → OnOk result (Chain stack.new) }
    // where a stub was taken its frame is there
    ensures there { Chain stack.old
        → IfOk result (λ stub. IfSome stub (λ _. HasFrame stack.new)) }
{
    if let Some(stub) = stack.leave_and_take_stub() {
        return Ok(Some(stub));
    }
    give_back_in_steps(stack)
}

// The same, the frame first and then the stub.
#[cold]
#[inline(never)]
fn give_back_in_steps(stack: &mut Stack) -> Result<Option<Stub>, FlowStop>
    ensures ok { GivesOrStops (returns.given_back stack.old) stack.new result }

    ensures chain { Chain stack.old → IsOk result }
    ensures kept { Chain stack.old → OnOk result (Chain stack.new) }
    ensures there { Chain stack.old
        → IfOk result (λ stub. IfSome stub (λ _. HasFrame stack.new)) }
{
    stack.leave();
    take_top(stack)
}

// Takes the stub on top, or gives None where nothing is left.
#[inline(always)]
fn take_top(stack: &mut Stack) -> Result<Option<Stub>, FlowStop>
    ensures ok { GivesOrStops (returns.stub_or_end stack.old) stack.new result }
    ensures ready { IsReady stack.old → IsOk result }
    ensures kept { Chain stack.old → EndsInOwnStub stack.old → OnOk result (Chain stack.new) }
    ensures there { Chain stack.old
        → IfOk result (λ stub. IfSome stub (λ _. HasFrame stack.new)) }
{
    if stack.length() == 0 {
        return Ok(None);
    }
    Ok(Some(stack.take_stub()?))
}
