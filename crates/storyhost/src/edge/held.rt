//! Files that this program alone has: each is locked as long as it is open, so that no two hosts
//! have one folder.
use std::fs::{self, File, OpenOptions, TryLockError};
use std::io::{self, ErrorKind};
use std::path::Path;
use std::rt::Files;

/// The system's number for a file system, or a machine beyond it, that has no locks to give.
const NO_LOCKS: i32 = 37;

/// What became of a lock that wasn't waited for. A file system that knows no locks lets it pass.
fn locked(tried: Result<(), TryLockError>) -> io::Result<()> {
    let Err(refusal) = tried else {
        return Ok(());
    };
    let error = io::Error::from(refusal);
    match error.kind() {
        ErrorKind::WouldBlock => {
            let message = "another host may have the folder";
            Err(io::Error::new(ErrorKind::WouldBlock, message))
        }
        ErrorKind::Unsupported => Ok(()),
        _ if error.raw_os_error() == Some(NO_LOCKS) => Ok(()),
        _ => Err(error),
    }
}

/// Locks the file without waiting. The lock ends with the program, however that ends.
fn lock(file: &File) -> io::Result<()> {
    locked(file.try_lock())
}

/// The same with others who only look.
fn lock_shared(file: &File) -> io::Result<()> {
    locked(file.try_lock_shared())
}

/// A file system that doesn't know a call says so.
fn is_unknown(kind: ErrorKind) -> bool {
    matches!(kind, ErrorKind::InvalidInput | ErrorKind::Unsupported)
}

/// Syncs a folder, so that a stop doesn't take a file out of it. A file system that knows no such
/// sync lets it pass.
fn sync_folder<R: Files<File = File>>(rt: &R, folder: Path<'_>) -> io::Result<()> {
    let name = folder.as_str();
    let path = if name.is_empty() { "." } else { name };
    match fs::open(rt, path)?.sync_all() {
        Err(error) if is_unknown(error.kind()) => Ok(()),
        answer => answer,
    }
}

/// Makes a folder with those above it, where they are missing, and syncs the ones that got a new
/// folder.
fn make_folder<R: Files<File = File>>(rt: &R, folder: Path<'_>) -> io::Result<()> {
    let mut missing = 0usize;
    for path in folder.ancestors() {
        if path.as_str().is_empty() || fs::exists(rt, path)? {
            break;
        }
        missing = missing.saturating_add(1);
    }
    if missing == 0 {
        return Ok(());
    }
    fs::create_dir_all(rt, folder)?;
    for path in folder.ancestors().skip(1).take(missing) {
        sync_folder(rt, path)?;
    }
    Ok(())
}

/// Whether nothing stands at that name, nor a link that leads nowhere on the way to it.
fn is_free<R: Files<File = File>>(rt: &R, name: &str) -> io::Result<bool> {
    for path in Path::new(name).ancestors() {
        if path.as_str().is_empty() {
            break;
        }
        match fs::symlink_metadata(rt, path) {
            Ok(_) => return fs::exists(rt, path),
            Err(error) if error.kind() == ErrorKind::NotFound => {}
            Err(error) => return Err(error),
        }
    }
    Ok(true)
}

/// The file of that name, open for reading and writing and locked, or none where it is missing. Its
/// folder is synced.
pub fn find<R: Files<File = File>>(rt: &R, name: &str) -> io::Result<Option<File>> {
    let file = match OpenOptions::new().read(true).write(true).open(rt, name) {
        Ok(file) => file,
        Err(error) if error.kind() == ErrorKind::NotFound => {
            if is_free(rt, name)? {
                return Ok(None);
            }
            return Err(io::Error::new(ErrorKind::NotFound, "a link leads nowhere"));
        }
        Err(error) => return Err(error),
    };
    lock(&file)?;
    if let Some(folder) = Path::new(name).parent() {
        sync_folder(rt, folder)?;
    }
    Ok(Some(file))
}

/// The file of that name, open for reading alone and locked with others who only look, or none where
/// it is missing. Nothing is made or synced.
pub fn look<R: Files<File = File>>(rt: &R, name: &str) -> io::Result<Option<File>> {
    let file = match fs::open(rt, name) {
        Ok(file) => file,
        Err(error) if error.kind() == ErrorKind::NotFound => return Ok(None),
        Err(error) => return Err(error),
    };
    lock_shared(&file)?;
    Ok(Some(file))
}

/// Makes the file of that name, with its folder, open for reading and writing and locked. Where
/// another program has made it meanwhile it has to be empty still.
pub fn make<R: Files<File = File>>(rt: &R, name: &str) -> io::Result<File> {
    let folder = Path::new(name).parent();
    if let Some(folder) = folder {
        make_folder(rt, folder)?;
    }
    let file = OpenOptions::new()
        .read(true)
        .write(true)
        .create(true)
        .open(rt, name)?;
    lock(&file)?;
    if file.metadata()?.len() > 0 {
        let message = "another program has written to it meanwhile";
        return Err(io::Error::new(ErrorKind::AlreadyExists, message));
    }
    if let Some(folder) = folder {
        sync_folder(rt, folder)?;
    }
    Ok(file)
}
