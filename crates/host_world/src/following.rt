//! A list of events, one after the other, and what holds over every such list (own).

ghost use Rattle.std.specs.Prelude.{◌≡◌, IfOk, OnOk};
ghost use Rattle.gate_journal.specs.Command.{IsBudget};
ghost use Rattle.host_world.specs.Events.{after, run};
ghost use Rattle.host_world.specs.Headline.{EachLives, NothingIsLost, EventsAreIsolated};
ghost use Rattle.host_world.specs.Headline.{OpeningsFindRows};
ghost use Rattle.host_world.specs.Laws.{ShowsRunAlone};
ghost use Rattle.host_world.specs.Puts.{AreOwnPuts};
ghost use Rattle.host_world.specs.Whole.{all_to_host, whole_run};
ghost use Rattle.host_world.specs.WholeHeadline.{FilesAgree, LivesAsHost, NothingIsLostInAll};
ghost use Rattle.host_world.specs.WholeHeadline.{SessionWarmsInSixteen};

use crate::event::JournalEvent;
use crate::state::JournalHost;
use crate::whole::{Event, HostState};
use std::alloc::{AllocError, Global};
use story_run::Story;

impl JournalHost {
    // An event happens; one that isn't enabled changes nothing.
    fn happen(
        &mut self,
        alloc: Global,
        stories: &[Story],
        budget: u64,
        event: &JournalEvent,
    ) -> Result<(), AllocError>
        requires { IsBudget budget }
        ensures { OnOk result (self.new ≡ after stories.now budget self.old event.now) }
    {
        match event {
            JournalEvent::Take { s, pass, line } => {
                return self.take(alloc, stories, budget, *s, *pass, line);
            }
            JournalEvent::Want { s } => self.want(*s),
            JournalEvent::Hold { s } => self.hold(*s),
            JournalEvent::Call { disk, good, reads } => {
                return self.call(alloc, stories, budget, *disk, *good, reads);
            }
            JournalEvent::Free { s } => self.free(*s),
            JournalEvent::Run { s, found } => self.run_turn(*s, *found),
            JournalEvent::Accept { s } => return self.accept(alloc, stories, budget, *s),
            JournalEvent::Give { s } => return self.give(*s),
            JournalEvent::Stop { images } => return self.stop(alloc, images),
            JournalEvent::Recover => self.recover(),
        }
        Ok(())
    }
}

/// The host after these events, one after the other, with these stories and this budget of a turn in
/// ticks. One that isn't enabled changes nothing.
///
/// Whatever happens in whatever order: each session's history and replies are the fold of its own
/// turns; a stop leaves what it accepted, or that and one command more; and what happens to other
/// sessions changes no reply. An error is want of memory.
pub fn follow_journal(
    alloc: Global,
    stories: &[Story],
    budget: u64,
    mut state: JournalHost,
    events: &[JournalEvent],
) -> Result<JournalHost, AllocError>
    requires { IsBudget budget }
    ensures value { IfOk result (λ w. w ≡ run stories.now budget state events.now) }
    // Of hosts that are opened or down:
    ensures lives { IfOk result (EachLives stories.now budget state events.now) }
    ensures shows { ShowsRunAlone }
    ensures finds { IfOk result (OpeningsFindRows stories.now budget state events.now) }
    ensures kept { IfOk result (NothingIsLost stories.now budget state events.now) }
    ensures isolated { IfOk result (EventsAreIsolated stories.now budget state events.now) }
{
    for event in events {
        state.happen(alloc, stories, budget, event)?;
    }
    Ok(state)
}

/// The host and its sessions' files after these events, one after the other, with these stories and
/// this budget of a turn in ticks. One that isn't enabled changes nothing.
///
/// Whatever happens in whatever order: the host lives through what one with its journal alone lives
/// through, so each session's history and replies are the fold of its own turns, nothing that was
/// acknowledged is lost, and what happens to other sessions changes no reply; each put is of the
/// session's own snapshot; each image of a session's file agrees with its rows and its commands; and
/// a session of which no due snapshot was missed warms in at most 16 turns. An error is want of
/// memory.
pub fn follow(
    alloc: Global,
    stories: &[Story],
    budget: u64,
    mut state: HostState,
    events: &[Event],
) -> Result<HostState, AllocError>
    requires { IsBudget budget }
    ensures value { IfOk result (λ w. w ≡ whole_run stories.now budget state events.now) }
    ensures own { IfOk result (λ _. AreOwnPuts stories.now budget state events.now) }
    ensures host { IfOk result (LivesAsHost stories.now budget state events.now) }
    // Of hosts that are opened or down:
    ensures lives { IfOk result (λ v. EachLives stories.now budget state.host
        (all_to_host stories.now budget state events.now) v.host) }
    ensures shows { ShowsRunAlone }
    ensures finds { IfOk result (λ v. OpeningsFindRows stories.now budget state.host
        (all_to_host stories.now budget state events.now) v.host) }
    ensures kept { IfOk result (NothingIsLostInAll stories.now budget state events.now) }
    ensures isolated { IfOk result (λ v. EventsAreIsolated stories.now budget state.host
        (all_to_host stories.now budget state events.now) v.host) }
    ensures files { IfOk result (FilesAgree stories.now budget state events.now) }
    ensures warms { IfOk result (SessionWarmsInSixteen stories.now budget state events.now) }
{
    for event in events {
        state.happen(alloc, stories, budget, event)?;
    }
    Ok(state)
}
