//! The events of a session's snapshot file (own).

ghost use Rattle.std.specs.Prelude.{◌≡◌, IfOk, OnOk, OnErr, None, [], ◌∷◌};
ghost use Rattle.store_events.specs.Events.{file_after, store_comes_up, store_down_over};
ghost use Rattle.store_events.specs.Events.{first_stage, next_store_call, is_opening, is_putting};
ghost use Rattle.store_events.specs.Events.{store_onward, begins_opening, put_call, put_onward};
ghost use Rattle.disk_model.specs.Plain.{is_image};
ghost use Rattle.session_saves.specs.Saves.{due_in};
ghost use Rattle.store_events.specs.Steady.{IsSteady};
ghost use Rattle.store_events.specs.declared.event.FileEvent.TheVariants as FileEvent;
ghost use Rattle.store_events.specs.declared.state.FileStep.TheVariants as Steps;

use crate::area::NewArea;
use crate::disk::{DiskCall, make_call};
use crate::look::{outline_of, slots_in};
use crate::state::{FileStep, OpeningStage, PutStage, StoreState, set_step};
use disk_model::PlainDisk;
use session_saves::falls_due;
use snap_store::{MAX_SNAPSHOT, Side, Slot};
use std::alloc::{AllocError, Global};
use std::mem;
use story_text::Bytes;

fn one_byte(alloc: Global, byte: u8) -> Result<Bytes, AllocError>
    ensures { IfOk result (λ bytes. bytes ≡ byte ∷ []) }
{
    Ok(Bytes::of(Vec::from_slice(alloc, &[byte])?))
}

// The device call that a stage of a put makes.
fn put_call(
    alloc: Global,
    stage: PutStage,
    side: Side,
    area: &NewArea,
) -> Result<DiskCall, AllocError>
    ensures { IfOk result (λ call. call ≡ put_call stage side area.now) }
{
    let call = match stage {
        PutStage::CloseWrite => DiskCall::Write {
            at: u128::from(side.gate()),
            piece: one_byte(alloc, 0)?,
        },
        PutStage::HeadWrite => DiskCall::Write {
            at: u128::from(side.start()),
            piece: area.head(alloc)?,
        },
        PutStage::BytesWrite => DiskCall::Write {
            at: u128::from(side.start()) + 16,
            piece: area.bytes(alloc)?,
        },
        PutStage::OpenWrite => DiskCall::Write {
            at: u128::from(side.gate()),
            piece: one_byte(alloc, 1)?,
        },
        PutStage::CloseSync | PutStage::AreaSync | PutStage::OpenSync => DiskCall::Sync,
    };
    Ok(call)
}

// The device call that a step makes.
fn next_call(alloc: Global, step: &FileStep) -> Result<Option<DiskCall>, AllocError>
    ensures { IfOk result (λ call. call ≡ next_store_call step.now) }
{
    let call = match step {
        FileStep::Idle => return Ok(None),
        FileStep::Put { stage, side, area } => put_call(alloc, *stage, *side, area)?,
        FileStep::Opening(OpeningStage::FirstSync) => DiskCall::Sync,
        FileStep::Opening(_) => DiskCall::Look,
    };
    Ok(Some(call))
}

// The stage with which a put begins, by what is known of the gate.
fn first_stage(slot: Slot) -> PutStage
    ensures { result ≡ first_stage slot }
{
    if slot.is_closed() {
        PutStage::CloseSync
    } else {
        PutStage::CloseWrite
    }
}

impl StoreState {
    /// A host that is down over a file with these bytes, with nothing pending.
    pub fn down(alloc: Global, file: &Bytes) -> Result<StoreState, AllocError>
        ensures value { IfOk result (λ w. w ≡ store_down_over file.now) }
        ensures steady { IfOk result IsSteady }
    {
        let bytes = file.as_slice();
        Ok(StoreState {
            up: false,
            disk: PlainDisk::settled(alloc, bytes)?,
            faults: 0,
            made: outline_of(bytes).made,
            slots: slots_in(bytes),
            step: FileStep::Idle,
        })
    }

    /// A put begins, where an opening has ended well, the file has its header, nothing is under way
    /// and the bytes aren't too many. Where memory runs out nothing has changed.
    pub fn keep(
        &mut self,
        alloc: Global,
        place: u64,
        count: u32,
        bytes: &Bytes,
    ) -> Result<(), AllocError>
        ensures ok { OnOk result
            (self.new ≡ file_after self.old (FileEvent.Keep place count bytes.now)) }
        ensures err { OnErr result (self.new ≡ self.old) }
    {
        let FileStep::Idle = self.step else {
            return Ok(());
        };
        if !self.up || !self.made || bytes.as_slice().len() > MAX_SNAPSHOT as usize {
            return Ok(());
        }
        let area = NewArea::of(place, count, bytes.copy_of(alloc)?);
        let side = self.slots.taken();
        let slot = self.slots.of(side);
        self.slots.set(side, slot.loosened());
        let stage = first_stage(slot);
        set_step(&mut self.step, FileStep::Put { stage, side, area });
        Ok(())
    }

    // A good call of a put was made.
    fn put_onward(&mut self, stage: PutStage, side: Side, area: NewArea)
        ensures { self.new ≡ put_onward self.old stage side area }
    {
        let next = match stage {
            PutStage::CloseWrite => PutStage::CloseSync,
            PutStage::CloseSync => {
                self.slots.set(side, Slot::Closed);
                PutStage::HeadWrite
            }
            PutStage::HeadWrite => PutStage::BytesWrite,
            PutStage::BytesWrite => PutStage::AreaSync,
            PutStage::AreaSync => {
                self.slots.set(side, Slot::Unsure);
                PutStage::OpenWrite
            }
            PutStage::OpenWrite => PutStage::OpenSync,
            PutStage::OpenSync => {
                let slot = Slot::Open {
                    place: area.place(),
                    count: area.count(),
                };
                self.slots.set(side, slot);
                set_step(&mut self.step, FileStep::Idle);
                return;
            }
        };
        set_step(
            &mut self.step,
            FileStep::Put {
                stage: next,
                side,
                area,
            },
        );
    }

    // An opening has ended well.
    fn come_up(&mut self)
        ensures { self.new ≡ store_comes_up self.old }
    {
        self.made = outline_of(self.disk.seen()).made;
        self.slots = slots_in(self.disk.seen());
        self.up = true;
        set_step(&mut self.step, FileStep::Idle);
    }

    // A good call of this step was made.
    fn go_onward(&mut self, step: FileStep)
        ensures { self.new ≡ store_onward self.old step }
    {
        let next = match step {
            FileStep::Idle => return,
            FileStep::Put { stage, side, area } => {
                self.put_onward(stage, side, area);
                return;
            }
            FileStep::Opening(OpeningStage::FirstSync) => OpeningStage::AskSize,
            FileStep::Opening(OpeningStage::AskSize) => OpeningStage::ReadFront,
            FileStep::Opening(OpeningStage::ReadFront) => OpeningStage::ReadA,
            FileStep::Opening(OpeningStage::ReadA) => OpeningStage::ReadB,
            FileStep::Opening(OpeningStage::ReadB) => {
                self.come_up();
                return;
            }
        };
        set_step(&mut self.step, FileStep::Opening(next));
    }

    /// The disk makes its next call. Where that isn't good the disk reads as `reads` from then on.
    pub fn call(&mut self, alloc: Global, good: bool, reads: &Bytes) -> Result<(), AllocError>
        ensures ok { OnOk result (self.new ≡ file_after self.old (FileEvent.Call good reads.now)) }
        ensures err { OnErr result (self.new ≡ self.old) }
    {
        let Some(call) = next_call(alloc, &self.step)? else {
            return Ok(());
        };
        if !make_call(alloc, &mut self.disk, &call, good, reads.as_slice())? {
            return Ok(());
        }
        let step = mem::replace(&mut self.step, FileStep::Idle);
        if good {
            self.go_onward(step);
        } else {
            self.faults = self.faults.saturating_add(1);
        }
        Ok(())
    }

    /// The host stops, and the disk holds the image, where a stop may leave it. Where memory runs
    /// out nothing has changed.
    pub fn stop(&mut self, alloc: Global, image: &Bytes) -> Result<(), AllocError>
        ensures ok { OnOk result (self.new ≡ file_after self.old (FileEvent.Stop image.now)) }
        ensures err { OnErr result (self.new ≡ self.old) }
    {
        if !self.disk.is_image(image.as_slice()) {
            return Ok(());
        }
        self.disk = PlainDisk::settled(alloc, image.as_slice())?;
        self.up = false;
        set_step(&mut self.step, FileStep::Idle);
        Ok(())
    }

    /// An opening begins, where the host is down.
    pub fn recover(&mut self)
        ensures { self.new ≡ file_after self.old FileEvent.Recover }
    {
        if !self.up {
            set_step(&mut self.step, FileStep::Opening(OpeningStage::FirstSync));
        }
    }

    /// An opening begins, whatever was under way.
    pub fn open_anew(&mut self)
        ensures { self.new ≡ begins_opening self.old }
    {
        self.up = false;
        set_step(&mut self.step, FileStep::Opening(OpeningStage::FirstSync));
    }

    /// The snapshot of this OPEN row after so many inputs is due: their number is a positive multiple
    /// of 16, and that snapshot isn't known to be open.
    #[tactic(auto, unfolding(session_saves::specs::Saves::due_in))]
    pub fn is_due(&self, place: u64, count: u32) -> bool
        ensures { result ≡ due_in self.now.slots None place count }
    {
        falls_due(count) && !self.slots.has(place, count)
    }

    /// What the disk reads as.
    pub fn seen(&self) -> &[u8]
        ensures { result.now ≡ self.now.disk.seen }
    {
        self.disk.seen()
    }

    /// Whether an opening has ended well, and no stop has come since.
    pub fn is_up(&self) -> bool
        ensures { result ≡ self.now.up }
    {
        self.up
    }

    /// Whether an opening is under way.
    pub fn is_opening(&self) -> bool
        ensures { result ≡ is_opening self.now.step }
    {
        matches!(self.step, FileStep::Opening(_))
    }

    /// Whether a put is under way.
    pub fn is_putting(&self) -> bool
        ensures { result ≡ is_putting self.now.step }
    {
        matches!(self.step, FileStep::Put { .. })
    }

    /// Whether a stop may leave this image.
    pub fn is_image(&self, image: &[u8]) -> bool
        ensures { result ≡ is_image self.now.disk image.now }
    {
        self.disk.is_image(image)
    }
}
