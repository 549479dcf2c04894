//! The snapshot files of a host's sessions (own).

ghost use Rattle.std.specs.Prelude.{◌≡◌, IfOk, OnOk, Some, map};
ghost use Rattle.std.specs.List.{slice_get};
ghost use Rattle.store_events.specs.Events.{begins_opening};
ghost use Rattle.store_events.specs.declared.event.FileEvent.TheVariants as FileEvent;
ghost use Rattle.host_world.specs.Keeping.{put_begun, with_event};
ghost use Rattle.host_world.specs.Whole.{all_up, are_images, fails_at, file_over, no_put};
ghost use Rattle.host_world.specs.Whole.{stopped_files};

use crate::keeping::Snapshot;
use std::alloc::{AllocError, Global};
use store_events::StoreState;
use story_text::Bytes;

/// Files of a host that is down, which hold these bytes.
pub fn files_over(alloc: Global, files: &[Bytes]) -> Result<Vec<StoreState>, AllocError>
    ensures { IfOk result (λ stores. stores.items ≡ map file_over files.now) }
{
    let mut stores = Vec::new(alloc);
    for file in files {
        let store = StoreState::down(alloc, file)?;
        stores.push(store)?;
    }
    Ok(stores)
}

/// The journal and each file are opened.
pub fn all_up(stores: &[StoreState]) -> bool
    ensures { result ≡ all_up stores.now }
{
    let mut rest = stores;
    while let [first, others @ ..] = rest {
        if !first.is_up() {
            return false;
        }
        rest = others;
    }
    true
}

/// A stop may leave these images of the files.
pub fn are_images(stores: &[StoreState], images: &[Bytes]) -> bool
    ensures { result ≡ are_images stores.now images.now }
{
    let mut files = stores;
    let mut rest = images;
    while let [file, files_behind @ ..] = files {
        let [image, images_behind @ ..] = rest else {
            return false;
        };
        if !file.is_image(image.as_slice()) {
            return false;
        }
        files = files_behind;
        rest = images_behind;
    }
    rest.is_empty()
}

/// No put of this file is under way.
pub fn no_put(stores: &[StoreState], s: u8) -> bool
    ensures { result ≡ no_put (slice_get stores.now s) }
{
    match stores.get(s as usize) {
        None => true,
        Some(store) => !store.is_putting(),
    }
}

/// A file is called. Answers whether its opening failed in this call.
pub fn call_file(
    alloc: Global,
    stores: &mut Vec<StoreState>,
    s: u8,
    good: bool,
    reads: &Bytes,
) -> Result<bool, AllocError>
    ensures fails { IfOk result (λ fails. fails
        ≡ fails_at (slice_get stores.old.items s) good reads.now) }
    ensures files { IfOk result (λ _. stores.new.items
        ≡ with_event stores.old.items s (FileEvent.Call good reads.now)) }
{
    let Some(store) = stores.get_mut(s as usize) else {
        return Ok(false);
    };
    let was_opening = store.is_opening();
    store.call(alloc, good, reads)?;
    Ok(was_opening && !store.is_opening() && !store.is_up())
}

/// The put of a snapshot begins in a file.
pub fn keep_file(
    alloc: Global,
    stores: &mut Vec<StoreState>,
    s: u8,
    snapshot: &Snapshot,
) -> Result<(), AllocError>
    ensures { OnOk result (stores.new.items ≡ put_begun stores.old.items s (Some snapshot.now)) }
{
    if let Some(store) = stores.get_mut(s as usize) {
        store.keep(alloc, snapshot.place, snapshot.count, &snapshot.bytes)?;
    }
    Ok(())
}

/// Each file holds its image.
pub fn stop_files(
    alloc: Global,
    stores: &mut Vec<StoreState>,
    images: &[Bytes],
) -> Result<(), AllocError>
    ensures { OnOk result (stores.new.items ≡ stopped_files stores.old.items images.now) }
{
    for at in 0..stores.len() {
        if at < images.len() {
            stores[at].stop(alloc, &images[at])?;
        }
    }
    Ok(())
}

/// The openings of all files begin.
pub fn open_files(stores: &mut Vec<StoreState>)
    ensures { stores.new.items ≡ map begins_opening stores.old.items }
{
    for at in 0..stores.len() {
        stores[at].open_anew();
    }
}
