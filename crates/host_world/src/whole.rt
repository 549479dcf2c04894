//! A host with the snapshot files of its sessions, and every order of events that may happen to it
//! (own).

ghost use Rattle.std.specs.Prelude.{◌≡◌, IfOk, IfSome, OnOk, List, [], ◌∷◌, ℕ, length, map, Some};
ghost use Rattle.std.specs.Prelude.{if◌then◌else◌};
ghost use Rattle.std.specs.List.{slice_get};
ghost use Rattle.story_run.specs.declared.story.Story.{Story};
ghost use Rattle.gate_journal.specs.Command.{IsBudget};
ghost use Rattle.store_events.specs.Events.{begins_opening};
ghost use Rattle.store_events.specs.declared.state.StoreState.{StoreState};
ghost use Rattle.store_events.specs.declared.event.FileEvent.TheVariants as FileEvent;
ghost use Rattle.disk_model.specs.Plain.{is_image};
ghost use Rattle.host_world.specs.Events.{after, run};
ghost use Rattle.host_world.specs.Keeping.{IsOwnSnapshot, with_event};
ghost use Rattle.host_world.specs.Puts.{IsOwnPut};
ghost use Rattle.host_world.specs.Whole.{are_images, closes_host, fails_at, is_up, put_of};
ghost use Rattle.host_world.specs.Whole.{stopped_files, whole_after, whole_down};
ghost use Rattle.host_world.specs.Whole.{with_files, with_host};
ghost use Rattle.host_world.specs.WholeHeadline.{MayBegin};
ghost use Rattle.host_world.specs.declared.event.JournalEvent.TheVariants as JournalEvent;
ghost use Rattle.host_world.specs.declared.whole.Event.TheVariants as Event;

use crate::event::Images;
use crate::files::{
    all_up, are_images, call_file, files_over, keep_file, no_put, open_files, stop_files,
};
use crate::items::Items;
use crate::keeping::{Snapshot, due_snapshot};
use crate::state::{Given, JournalHost};
use crate::steps::holds;
use std::alloc::{AllocError, Global};
use store_events::StoreState;
use story_run::Story;
use story_text::Bytes;

/// A host with its journal, and the snapshot file of each of its sessions.
#[derive(Drop)]
pub struct HostState {
    pub(crate) host: JournalHost,
    pub(crate) stores: Items<StoreState>,
}

/// An event. One that isn't enabled changes nothing. Disk 0 is the journal's, and disk `s` + 1 the
/// file of session `s`; a stop leaves an image of each.
#[derive(Drop)]
pub enum Event {
    /// The session `s` begins a turn by the pass of this number, with this line, given without LF.
    Take { s: u8, pass: u64, line: Bytes },
    /// Memory runs out in its turn before an append has begun.
    Want { s: u8 },
    /// It takes the journal.
    Hold { s: u8 },
    /// A disk makes its next call. Where that isn't good the disk reads as `reads` from then on.
    Call { disk: u8, good: bool, reads: Bytes },
    /// It gives the journal back.
    Free { s: u8 },
    /// It answers; `found` says whether memory for the reply was found.
    Run { s: u8, found: bool },
    /// The put of its snapshot begins, where one is due that isn't stored.
    Keep { s: u8 },
    /// Its history takes the entry.
    Accept { s: u8 },
    /// Its reply is given, and the turn ends.
    Give { s: u8 },
    /// The host stops, and its disks hold these images: the journal's, and then those of the files.
    Stop { images: Images },
    /// An opening begins.
    Recover,
}

// An image of one disk.
fn one_image(alloc: Global, bytes: &[u8]) -> Result<Images, AllocError>
    ensures { IfOk result (λ images. images ≡ bytes.now ∷ []) }
{
    let mut list = Vec::new(alloc);
    list.push(Bytes::of(Vec::from_slice(alloc, bytes)?))?;
    Ok(Images::of(list))
}

impl HostState {
    /// The host with its journal.
    pub fn host(&self) -> &JournalHost
        ensures { result.now ≡ self.now.host }
    {
        &self.host
    }

    /// The snapshot files, by session.
    pub fn files(&self) -> &[StoreState]
        ensures { result.now ≡ self.now.stores }
    {
        self.stores.as_slice()
    }

    /// The replies, in the order in which they were given.
    pub fn replies(&self) -> &[Given]
        ensures { result.now ≡ self.now.host.given }
    {
        self.host.replies()
    }

    /// A host that is down over disks that hold these bytes, with nothing pending and counts of 0, and
    /// that gave no replies: the journal's, and the snapshot file of each session, by its number.
    pub fn down(alloc: Global, journal: Bytes, stores: Vec<Bytes>) -> Result<HostState, AllocError>
        requires { length stores.items ≡ 64 }
        ensures value { IfOk result (λ w. w ≡ whole_down journal stores.items) }
        // Over a journal that an opening may meet, and files that agree with its rows, a list of
        // events may begin at it.
        ensures start { IfOk result (MayBegin journal stores.items) }
    {
        let host = JournalHost::down(alloc, &journal)?;
        let files = files_over(alloc, stores.as_slice())?;
        Ok(HostState {
            host,
            stores: Items::of(files),
        })
    }

    // The journal and each file are opened.
    fn is_up(&self) -> bool
        ensures { result ≡ is_up self.now }
    {
        self.host.up && all_up(self.stores.as_slice())
    }

    // The host is down again, over its journal as it reads.
    fn close(&mut self, alloc: Global) -> Result<(), AllocError>
        ensures { (stories : List Story) (budget : ℕ) → OnOk result (self.new
            ≡ record self.old {
              host = run stories budget self.old.host
                  (closes_host self.old.host);
            }) }
    {
        let images = one_image(alloc, self.host.disk.seen())?;
        self.host.stop(alloc, &images)
    }

    // A session begins a turn.
    fn take(
        &mut self,
        alloc: Global,
        stories: &[Story],
        budget: u64,
        s: u8,
        pass: u64,
        line: &Bytes,
    ) -> Result<(), AllocError>
        ensures { OnOk result (self.new
            ≡ whole_after stories.now budget self.old (Event.Take s pass line.now)) }
    {
        if !self.is_up() {
            return Ok(());
        }
        self.host.take(alloc, stories, budget, s, pass, line)
    }

    // A file is called. Answers whether its opening failed in this call.
    fn call_file(
        &mut self,
        alloc: Global,
        s: u8,
        good: bool,
        reads: &Bytes,
    ) -> Result<bool, AllocError>
        ensures fails { IfOk result (λ fails. fails
            ≡ fails_at (slice_get self.old.stores s) good reads.now) }
        ensures files { IfOk result (λ _. self.new ≡ record self.old {
          stores = with_event self.old.stores s (FileEvent.Call good reads.now);
        }) }
    {
        call_file(alloc, &mut self.stores.list, s, good, reads)
    }

    // A disk makes its next call. Where the opening of a file fails the host is down again.
    fn call(
        &mut self,
        alloc: Global,
        stories: &[Story],
        budget: u64,
        disk: u8,
        good: bool,
        reads: &Bytes,
    ) -> Result<(), AllocError>
        requires { IsBudget budget }
        ensures { OnOk result (self.new
            ≡ whole_after stories.now budget self.old (Event.Call disk good reads.now)) }
    {
        if disk == 0 {
            return self.host.call(alloc, stories, budget, 0, good, reads);
        }
        if !self.host.up {
            return Ok(());
        }
        if self.call_file(alloc, disk - 1, good, reads)? {
            return self.close(alloc);
        }
        Ok(())
    }

    // The snapshot of a session that is due, where a put of it may begin.
    fn put_of(
        &self,
        alloc: Global,
        stories: &[Story],
        s: u8,
    ) -> Result<Option<Snapshot>, AllocError>
        ensures value { IfOk result (λ made. made ≡ put_of stories.now self.now s) }
        ensures own { IfOk result (λ made. IfSome made (λ snapshot.
            (x : StoreState) → slice_get self.now.stores s ≡ Some x
            → IsOwnSnapshot stories.now self.now.host.rows s x snapshot)) }
    {
        let Some(file) = self.stores.list.get(s as usize) else {
            return Ok(None);
        };
        if !self.is_up() || holds(self.host.holder, s) {
            return Ok(None);
        }
        due_snapshot(alloc, stories, &self.host.rows, s, file)
    }

    // The put of a session's snapshot begins.
    fn keep(&mut self, alloc: Global, stories: &[Story], s: u8) -> Result<(), AllocError>
        ensures value { (budget : ℕ) → OnOk result (self.new
            ≡ whole_after stories.now budget self.old (Event.Keep s)) }
        ensures own { OnOk result (IsOwnPut stories.now self.old (Event.Keep s)) }
    {
        let Some(snapshot) = self.put_of(alloc, stories, s)? else {
            return Ok(());
        };
        keep_file(alloc, &mut self.stores.list, s, &snapshot)
    }

    // The reply that is ready is given.
    fn give(&mut self, s: u8) -> Result<(), AllocError>
        ensures { (stories : List Story) (budget : ℕ) → OnOk result (self.new
            ≡ whole_after stories budget self.old (Event.Give s)) }
    {
        if !no_put(self.stores.as_slice(), s) {
            return Ok(());
        }
        self.host.give(s)
    }

    // A stop may leave this image of the journal's disk.
    fn is_image(&self, image: &Bytes) -> bool
        ensures { result ≡ is_image self.now.host.disk image.now }
    {
        self.host.disk.is_image(image.as_slice())
    }

    // And these of the files.
    fn are_images(&self, images: &[Bytes]) -> bool
        ensures { result ≡ are_images self.now.stores images.now }
    {
        are_images(self.stores.as_slice(), images)
    }

    // The journal's disk holds its image.
    fn stop_host(&mut self, alloc: Global, image: &Bytes) -> Result<(), AllocError>
        ensures { (stories : List Story) (budget : ℕ) → OnOk result (self.new
            ≡ with_host self.old
            (after stories budget self.old.host (JournalEvent.Stop (image.now ∷ [])))) }
    {
        let images = one_image(alloc, image.as_slice())?;
        self.host.stop(alloc, &images)
    }

    // Each file holds its image.
    fn stop_files(&mut self, alloc: Global, images: &[Bytes]) -> Result<(), AllocError>
        ensures { OnOk result (self.new
            ≡ with_files self.old (stopped_files self.old.stores images.now)) }
    {
        stop_files(alloc, &mut self.stores.list, images)
    }

    // The host stops, and its disks hold these images.
    fn stop_by(&mut self, alloc: Global, image: &Bytes, others: &[Bytes]) -> Result<(), AllocError>
        ensures { (stories : List Story) (budget : ℕ) → OnOk result (self.new
            ≡ whole_after stories budget self.old (Event.Stop (image.now ∷ others.now))) }
    {
        if !self.is_image(image) {
            return Ok(());
        }
        if !self.are_images(others) {
            return Ok(());
        }
        self.stop_host(alloc, image)?;
        self.stop_files(alloc, others)
    }

    // The same, where images are named.
    fn stop(&mut self, alloc: Global, images: &Images) -> Result<(), AllocError>
        ensures { (stories : List Story) (budget : ℕ) → OnOk result (self.new
            ≡ whole_after stories budget self.old (Event.Stop images.now)) }
    {
        let [image, others @ ..] = images.as_slice() else {
            return Ok(());
        };
        self.stop_by(alloc, image, others)
    }

    // The host is down, whatever it was.
    fn close_up(&mut self, alloc: Global) -> Result<(), AllocError>
        ensures { (stories : List Story) (budget : ℕ) → OnOk result (self.new
            ≡ record self.old {
              host = run stories budget self.old.host
                  (if self.old.host.up then closes_host self.old.host else []);
            }) }
    {
        if !self.host.up {
            return Ok(());
        }
        self.close(alloc)
    }

    // The opening of the journal begins.
    fn recover_host(&mut self)
        ensures { (stories : List Story) (budget : ℕ) → self.new
            ≡ with_host self.old (after stories budget self.old.host JournalEvent.Recover) }
    {
        self.host.recover();
    }

    // And those of the files.
    fn open_files(&mut self)
        ensures { self.new ≡ with_files self.old (map begins_opening self.old.stores) }
    {
        open_files(&mut self.stores.list);
    }

    // The openings begin, where the host isn't up.
    fn recover(&mut self, alloc: Global) -> Result<(), AllocError>
        ensures { (stories : List Story) (budget : ℕ) → OnOk result (self.new
            ≡ whole_after stories budget self.old Event.Recover) }
    {
        if self.is_up() {
            return Ok(());
        }
        self.close_up(alloc)?;
        self.recover_host();
        self.open_files();
        Ok(())
    }

    /// An event happens; one that isn't enabled changes nothing.
    pub(crate) fn happen(
        &mut self,
        alloc: Global,
        stories: &[Story],
        budget: u64,
        event: &Event,
    ) -> Result<(), AllocError>
        requires { IsBudget budget }
        ensures value { OnOk result (self.new
            ≡ whole_after stories.now budget self.old event.now) }
        ensures own { OnOk result (IsOwnPut stories.now self.old event.now) }
    {
        match event {
            Event::Take { s, pass, line } => {
                return self.take(alloc, stories, budget, *s, *pass, line);
            }
            Event::Want { s } => self.host.want(*s),
            Event::Hold { s } => self.host.hold(*s),
            Event::Call { disk, good, reads } => {
                return self.call(alloc, stories, budget, *disk, *good, reads);
            }
            Event::Free { s } => self.host.free(*s),
            Event::Run { s, found } => self.host.run_turn(*s, *found),
            Event::Keep { s } => return self.keep(alloc, stories, *s),
            Event::Accept { s } => return self.host.accept(alloc, stories, budget, *s),
            Event::Give { s } => return self.give(*s),
            Event::Stop { images } => return self.stop(alloc, images),
            Event::Recover => return self.recover(alloc),
        }
        Ok(())
    }
}
