//! A plain file that one program has for itself.
use std::fs::{File, OpenOptions, TryLockError};
use std::io::ErrorKind;
use std::os::unix::fs::MetadataExt;
use std::path::Path;
use std::rt::Files;
use std::{fs, io};

/// Opens the file of this path for reading and writing, and makes it if nothing has the path. It is
/// locked for as long as it is open, and its name is put down in its folder. Where a link, a folder
/// or a device has the path, nothing is opened.
pub fn open_own_file<R: Files<File = File>>(rt: &R, path: &str) -> io::Result<File> {
    let file = open_plain(rt, path)?;
    lock(&file)?;
    require_named(rt, path, &file)?;
    fs::open(rt, folder_of(path))?.sync_all()?;
    Ok(file)
}

/// What has the path is looked at before it is opened: some devices act as they are opened, and a
/// link may lead to nothing, where a file would be made.
fn open_plain<R: Files<File = File>>(rt: &R, path: &str) -> io::Result<File> {
    let mut options = OpenOptions::new();
    options.read(true).write(true);
    match fs::symlink_metadata(rt, path) {
        Ok(found) if found.is_file() => {}
        Ok(_) => return Err(io::Error::other("it is a link, a folder or a device")),
        Err(error) if error.kind() == ErrorKind::NotFound => {
            options.create_new(true);
        }
        Err(error) => return Err(error),
    }
    options.open(rt, path)
}

/// The system frees the lock as the program ends, also where it is killed.
fn lock(file: &File) -> io::Result<()> {
    match file.try_lock() {
        Ok(()) => Ok(()),
        Err(TryLockError::WouldBlock) => Err(io::Error::other("another program has locked it")),
        Err(TryLockError::Error(error)) => Err(error),
    }
}

/// Fails where the path has another file by now: this one's lock would keep nobody from that.
fn require_named<R: Files<File = File>>(rt: &R, path: &str, file: &File) -> io::Result<()> {
    let (named, opened) = (fs::symlink_metadata(rt, path)?, file.metadata()?);
    if (named.dev(), named.ino()) == (opened.dev(), opened.ino()) {
        Ok(())
    } else {
        Err(io::Error::other("another file was put in its place"))
    }
}

fn folder_of(path: &str) -> &str {
    match Path::new(path).parent() {
        Some(folder) if !folder.as_str().is_empty() => folder.as_str(),
        _ => ".",
    }
}
