//! The files that are written, as devices.
//!
//! What a file takes is outside of what a proof can know, so the facts of bytes of this device hold of any bytes. That
//! each failure is counted is proved.

ghost use Rattle.std.specs.Prelude.{◌≡◌, ◌+◌, ◌<◌, ◌≤◌, ◌^◌, length, IfOk, None};

use crate::limits;
use hrv_engines::Sink;
use std::alloc::{AllocError, Global};
use std::fs::{OpenFile, OpenOptions, Permissions};
use std::io::{Seek, Write};
use std::os::unix::fs::{OpenOptionsExt, PermissionsExt};
use std::rt::Files;
use std::{fs, io};

/// A file to be written. It is made at its first write, so that where nothing is written no file is made or touched.
///
/// The bytes go into a new file in the folder of the path, which takes the place of what is there once all of them
/// are on the disk: a write that fails leaves everything as it was. What is no regular file, as a terminal, a pipe or a
/// symbolic link, is written where it is; and so is a file where its folder takes no new one, or memory for a new
/// one's path is wanting.
#[derive(Drop)]
pub struct FileSink<'a, R: Files> {
    rt: &'a R,
    alloc: Global,
    path: &'a str,
    file: Option<R::File>,
    // The path of the new file, until it is at the path that was asked for.
    draft: Option<String>,
    failures: u64,
}

impl<'a, R: Files> FileSink<'a, R> {
    /// The file at a path, not yet made.
    pub fn new(rt: &'a R, alloc: Global, path: &'a str) -> FileSink<'a, R>
        ensures path { result.path.now ≡ path.entry.now }
        ensures failures { result.failures ≡ 0 }
        ensures unmade { result.file ≡ None }
    {
        FileSink {
            rt,
            alloc,
            path,
            file: None,
            draft: None,
            failures: 0,
        }
    }

    /// How many bytes the file took; it is made first where it isn't open.
    fn try_write(&mut self, bytes: &[u8]) -> io::Result<usize>
        ensures count { IfOk result (λ n. n ≤ length bytes.now) }
        ensures path { self.new.path.now ≡ self.old.path.now }
        ensures failures { self.new.failures ≡ self.old.failures }
    {
        if let Some(file) = &mut self.file {
            return write_within(self.rt, file, bytes);
        }
        self.begin(bytes)
    }

    /// Makes the file, and says how many of the first bytes it took.
    fn begin(&mut self, bytes: &[u8]) -> io::Result<usize>
        ensures count { IfOk result (λ n. n ≤ length bytes.now) }
        ensures path { self.new.path.now ≡ self.old.path.now }
        ensures failures { self.new.failures ≡ self.old.failures }
    {
        let standing = what_stands(self.rt, self.path)?;
        let beside = new_beside(self.rt, self.alloc, self.path, &standing)?;
        let Some((mut file, draft)) = beside else {
            let (file, count) = begin_in_place(self.rt, self.path, bytes)?;
            self.file = Some(file);
            return Ok(count);
        };
        self.draft = Some(draft);
        if let PathEntry::File(permissions) = standing {
            file.set_permissions(permissions)?;
        }
        let count = write_within(self.rt, &mut file, bytes)?;
        self.file = Some(file);
        Ok(count)
    }

    /// Has the disk take what was written, and puts the new file in the place of what is at the path, if there is a
    /// new file.
    fn try_finish(&mut self) -> io::Result<()>
        ensures path { self.new.path.now ≡ self.old.path.now }
        ensures failures { self.new.failures ≡ self.old.failures }
    {
        if let Some(file) = &self.file {
            sync(file)?;
        }
        self.file = None;
        let Some(draft) = &self.draft else {
            return Ok(());
        };
        replace(self.rt, draft.as_str(), self.path)?;
        self.draft = None;
        sync_folder(self.rt, self.path)
    }

    /// Counts a failure, and removes the new file.
    fn fail(&mut self)
        requires { self.old.failures + 1 < 2 ^ 64 }
        ensures path { self.new.path.now ≡ self.old.path.now }
        ensures failures { self.new.failures ≡ self.old.failures + 1 }
    {
        self.failures += 1;
        if let Some(draft) = &self.draft {
            // Where even this fails, the file stays, under a name that no command reads.
            let _ = fs::remove_file(self.rt, draft.as_str());
        }
        self.draft = None;
        self.file = None;
    }
}

/// What is at a path.
#[derive(Drop)]
enum PathEntry {
    /// Nothing.
    Nothing,
    /// A regular file that may be written, with its permissions.
    File(Permissions),
    /// Something else.
    Other,
}

/// What is at a path. A regular file that may not be written is an error.
fn what_stands<R: Files>(rt: &R, path: &str) -> io::Result<PathEntry> {
    let metadata = match fs::symlink_metadata(rt, path) {
        Ok(metadata) => metadata,
        Err(error) if error.kind() == io::ErrorKind::NotFound => return Ok(PathEntry::Nothing),
        Err(error) => return Err(error),
    };
    if !metadata.is_file() {
        return Ok(PathEntry::Other);
    }
    let _opened = OpenOptions::new().write(true).open(rt, path)?;
    Ok(PathEntry::File(metadata.permissions()))
}

/// Opens what is at a path and writes some bytes, and says how many. What it held before stays until bytes stand in
/// its place, so that a first write that fails leaves it as it was.
fn begin_in_place<R: Files>(rt: &R, path: &str, bytes: &[u8]) -> io::Result<(R::File, usize)>
    ensures { IfOk result (λ begun. begun.1 ≤ length bytes.now) }
{
    let mut file = OpenOptions::new().write(true).create(true).open(rt, path)?;
    let count = write_within(rt, &mut file, bytes)?;
    if count > 0 {
        cut(&file, count as u64)?;
    }
    Ok((file, count))
}

/// Writes bytes to a file, if the limit on the size of files lets it take them all, and says how many.
fn write_within<R: Files, F: Write + OpenFile + Seek>(
    rt: &R,
    file: &mut F,
    bytes: &[u8],
) -> io::Result<usize>
    ensures { IfOk result (λ n. n ≤ length bytes.now) }
{
    limits::admit(rt, file, bytes.len() as u64)?;
    file.write(bytes)
}

/// Cuts off what a file holds after this many bytes. What is no regular file, as a terminal or a pipe, has no length.
fn cut<F: OpenFile>(file: &F, length: u64) -> io::Result<()> {
    if file.metadata()?.is_file() {
        file.set_len(length)?;
    }
    Ok(())
}

/// Waits until the disk has what was written to a file. What is no regular file, as a terminal or a pipe, has no disk.
fn sync<F: OpenFile>(file: &F) -> io::Result<()> {
    if file.metadata()?.is_file() {
        file.sync_all()?;
    }
    Ok(())
}

/// Puts a new file in the place of what is at a path. A file that is a mount of its own can't be replaced: it takes
/// the bytes of the new one, which then goes.
fn replace<R: Files>(rt: &R, draft: &str, path: &str) -> io::Result<()> {
    match fs::rename(rt, draft, path) {
        Err(error) if error.kind() == io::ErrorKind::ResourceBusy => {
            fs::copy(rt, draft, path)?;
            sync(&OpenOptions::new().write(true).open(rt, path)?)?;
            fs::remove_file(rt, draft)
        }
        replaced => replaced,
    }
}

/// Waits until the disk has the names in the folder of a path, where that may be read and its file system can do so.
fn sync_folder<R: Files>(rt: &R, path: &str) -> io::Result<()> {
    let folder = match path.rsplit_once('/') {
        Some(("", _)) => "/",
        Some((folder, _)) => folder,
        None => ".",
    };
    let Ok(opened) = fs::open(rt, folder) else {
        return Ok(());
    };
    match opened.sync_all() {
        Err(error) if error.kind() == io::ErrorKind::InvalidInput => Ok(()),
        synced => synced,
    }
}

/// How many names of new files are tried in a folder: more than killed commands leave there.
const NAMES: u32 = 1_000_000;

/// A new file in the folder of a path, with its own path: the first of its names that is free. It has no right that the
/// file at the path hasn't. None where that file is to be written in its place: where it is no regular file, the folder
/// takes no new file, or memory for a path is wanting.
fn new_beside<R: Files>(
    rt: &R,
    alloc: Global,
    path: &str,
    standing: &PathEntry,
) -> io::Result<Option<(R::File, String)>> {
    let mode = match standing {
        PathEntry::Nothing => NEW_FILE,
        PathEntry::File(permissions) => permissions.mode(),
        PathEntry::Other => return Ok(None),
    };
    for number in 0..NAMES {
        let Ok(draft) = draft_path(alloc, path, number) else {
            return Ok(None);
        };
        let opened = OpenOptions::new()
            .write(true)
            .create_new(true)
            .mode(mode)
            .open(rt, draft.as_str());
        match opened {
            Ok(file) => return Ok(Some((file, draft))),
            Err(error) if error.kind() == io::ErrorKind::AlreadyExists => {}
            Err(error) if takes_no_file(&error) && matches!(standing, PathEntry::File(_)) => {
                return Ok(None);
            }
            Err(error) => return Err(error),
        }
    }
    Err(io::Error::from(io::ErrorKind::AlreadyExists))
}

/// The rights of a file where none was, before the system takes some away.
const NEW_FILE: u32 = 0o666;

/// Whether an error says that nothing new may be made in a folder.
fn takes_no_file(error: &io::Error) -> bool {
    matches!(
        error.kind(),
        io::ErrorKind::PermissionDenied | io::ErrorKind::ReadOnlyFilesystem
    )
}

/// The path of a new file in the folder of a path, by its number.
fn draft_path(alloc: Global, path: &str, number: u32) -> Result<String, AllocError> {
    match path.rsplit_once('/') {
        Some((folder, _)) => format!(in alloc; "{folder}/.hrv-{number}"),
        None => format!(in alloc; ".hrv-{number}"),
    }
}

impl<'a, R: Files> Sink for FileSink<'a, R> {
    ghost place = { λ s. s.path.now };

    ghost failed = { λ s. s.failures };

    ghost took = { λ _ _ _. Unit {0} };

    ghost took_nothing = { λ _. tt };

    ghost took_more = { λ _ _ _ _ _ _ _. tt };

    fn path(&self) -> &str {
        self.path
    }

    fn failures(&self) -> u64 {
        self.failures
    }

    fn write(&mut self, bytes: &[u8]) -> io::Result<usize> {
        let count = self.try_write(bytes);
        match count {
            Ok(0) if !bytes.is_empty() => self.fail(),
            Ok(_) => {}
            Err(_) => self.fail(),
        }
        count
    }

    fn finish(&mut self) -> io::Result<()> {
        let finished = self.try_finish();
        if finished.is_err() {
            self.fail();
        }
        finished
    }
}
