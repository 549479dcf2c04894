//! A list of events, one after the other (own).

ghost use Rattle.std.specs.Prelude.{◌≡◌, IfOk, OnOk};
ghost use Rattle.store_events.specs.Events.{file_after, run_store};
ghost use Rattle.store_events.specs.Steady.{IsSteady};

use crate::event::FileEvent;
use crate::state::StoreState;
use std::alloc::{AllocError, Global};

impl StoreState {
    // An event happens; one that isn't enabled changes nothing.
    fn happen(&mut self, alloc: Global, event: &FileEvent) -> Result<(), AllocError>
        ensures { OnOk result (self.new ≡ file_after self.old event.now) }
    {
        match event {
            FileEvent::Keep {
                place,
                count,
                bytes,
            } => return self.keep(alloc, *place, *count, bytes),
            FileEvent::Call { good, reads } => return self.call(alloc, *good, reads),
            FileEvent::Stop { image } => return self.stop(alloc, image),
            FileEvent::Recover => self.recover(),
        }
        Ok(())
    }
}

/// The file after these events, one after the other. One that isn't enabled changes nothing. An
/// error is want of memory.
pub fn follow(
    alloc: Global,
    mut state: StoreState,
    events: &[FileEvent],
) -> Result<StoreState, AllocError>
    ensures value { IfOk result (λ w. w ≡ run_store state events.now) }
    // what is known of the gates holds in each image, wherever the list ends
    ensures steady { IsSteady state → IfOk result IsSteady }
{
    for event in events {
        state.happen(alloc, event)?;
    }
    Ok(state)
}
