// Catch and throw.
ghost use Rattle.std.specs.Prelude.{◌≡◌, true, Ok, Err, OnOk, IfOk};
ghost use Rattle.vm_flow.specs.Answer.{GivesOrStops};
ghost use Rattle.vm_flow.specs.Throw as throws;
ghost use Rattle.vm_flow.specs.Token.{IsToken, thrown_to};
ghost use Rattle.vm_flow.specs.declared.stop.FlowStop.TheVariants as stop;
ghost use Rattle.vm_stack.specs.Token.{ends_stub};
ghost use Rattle.vm_stack.specs.Chain.{Chain, HasFrame, IsReady};

use crate::stop::FlowStop;
use vm_stack::{Stack, Stub};

/// Pushes a stub for the current frame, and gives the token of a later throw to it: the place where
/// it ends.
pub fn catch(stack: &mut Stack, kind: u32, at: u32, pc: u32) -> Result<u32, FlowStop>
    ensures ok { GivesOrStops (throws.caught stack.old kind at pc) stack.new result }

    ensures kept { Chain stack.old → HasFrame stack.old → OnOk result (Chain stack.new) }
    ensures there { OnOk result (HasFrame stack.new) }
    // the token is good, and a function may be called
    ensures good { Chain stack.old → HasFrame stack.old
        → (chain : Chain stack.new) → IfOk result (λ token. IsToken chain.frames token) }
    ensures ready { Chain stack.old → HasFrame stack.old → OnOk result (IsReady stack.new) }
{
    let frame = stack.frame();
    let stub = Stub {
        kind,
        at,
        pc,
        frame,
    };
    stack.push_stub(stub)?;
    Ok(stack.length())
}

/// Goes back to the stub that ends at the token, among the values of the current frame or of one
/// below it, and takes it. BadToken where there is none; the stack may then have lost frames.
pub fn throw(stack: &mut Stack, token: u32) -> Result<Stub, FlowStop>
    ensures ok { GivesOrStops (throws.thrown stack.old token) stack.new result }

    // the token is good exactly where the 16 bytes below it are a stub for a frame of the stack
    ensures good { (chain : Chain stack.old) → IsToken chain.frames token
        → GivesOrStops (Ok (thrown_to stack.old token)) stack.new result }
    ensures bad { (chain : Chain stack.old) → (IsToken chain.frames token → ⊥)
        → result ≡ Err (stop.BadToken token) }

    ensures kept { Chain stack.old → OnOk result (Chain stack.new) }
    ensures there { Chain stack.old → OnOk result (HasFrame stack.new) }
{
    let mut frames = stack.length();
    while frames > 0 {
        if stack.ends_stub(token) {
            return take_at(stack, token);
        }
        stack.leave();
        frames -= 1;
    }
    Err(FlowStop::BadToken(token))
}

// Takes the stub that ends at a place.
fn take_at(stack: &mut Stack, token: u32) -> Result<Stub, FlowStop>
    ensures ok { GivesOrStops (throws.stub_taken_at stack.old token) stack.new result }
    ensures kept { Chain stack.old → ends_stub stack.old token ≡ true
        → OnOk result (Chain stack.new) }
    ensures there { Chain stack.old → ends_stub stack.old token ≡ true
        → OnOk result (HasFrame stack.new) }
{
    stack.cut(token)?;
    Ok(stack.take_stub()?)
}
