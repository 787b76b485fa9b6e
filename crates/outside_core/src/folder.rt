ghost use Rattle.std.specs.Prelude.{◌≡◌, ◌≢◌, ◌≤◌, length, take, vec_len, Ok, Err, Some, None, IfOk, IfErr, IfSome, OnOk};
ghost use Rattle.std.specs.IoError.{error_kind};
ghost use Rattle.std.specs.Io.KnownBytes.{Appends};
ghost use Rattle.name_core.specs.NameText.{IsName};
ghost use Rattle.outside_core.specs.Faults.{Rose, next_count};
ghost use Rattle.outside_core.specs.Partial.{partial_name};

use crate::adapters::InSource;
use crate::traits::{Shelf, ShelfFault, Source};
use arrayvec::ArrayString;
use name_core::Name;
use std::alloc::Global;
use std::fs::{File, OpenFile, OpenOptions, Permissions};
use std::io::{ErrorKind, Write};
use std::marker::Model;
use std::os::unix::fs::OpenOptionsExt;
use std::rt::Files;
use std::{fs, io};

/// The most bytes that are asked for at once.
const PIECE: usize = 16384;

/// The most bytes of the name of an unfinished file: those of a name, a `.` before it and `.partial` behind it.
const PARTIAL_BYTES: usize = 73;

/// Who may read and write an unfinished file until it has the permissions of the one that it replaces.
const OWNER_ALONE: u32 = 0o600;

/// A shelf over the working folder. It tells nothing of its files. Contracts see it as how often a call
/// failed.
///
/// A name cannot lead out of the folder: it has 1 to 64 bytes, each a letter, a digit, `_`, `.` or `-`, and
/// the first is a letter, a digit or `_`. So it has no `/`, and is never `.` or `..`. A link that lies in the
/// folder is followed by a get. A put replaces the link, and what it leads to stays as it was.
///
/// A file is whole, or as it was. A put writes the bytes to a new file in the folder, `.NAME.partial` for the
/// name `NAME`, has them brought to the disk, and gives the file the name by one renaming. So a put that failed
/// leaves the file as it was, and one that was killed leaves it so or whole. One that failed removes its
/// unfinished file. One that was killed may leave it, and the next put of that name removes it. No name begins
/// with `.`, so no file that is put is ever taken for one. Where two programs put a file of one name at the same
/// time, it may hold a part for a while, and what a put answered may be wrong of it.
///
/// The new file has the permissions of the one that it replaces, and belongs to who runs the program. A file
/// that nobody may write is not replaced: the put fails. Other names of the old file, its hard links, keep the
/// old bytes. The folder is brought to the disk after the renaming; where the system does not do that, a loss
/// of power may bring back the old file.
#[derive(Drop)]
pub struct FolderShelf<R: Files> {
    folder: R,
    faults: u64,
}

impl<R: Files> Model for FolderShelf<R> {
    ghost use Rattle.std.specs.Prelude.{ℕ};

    ghost Value = { ℕ };

    ghost view = { λ s. s.faults };
}

impl<R: Files> FolderShelf<R> {
    /// A shelf over the working folder of this runtime, of which no call has failed yet.
    pub fn new(folder: R) -> FolderShelf<R>
        ensures { result ≡ 0 }
    {
        FolderShelf { folder, faults: 0 }
    }

    /// Counts the fault of a call that failed.
    fn counted<T>(&mut self, answer: Result<T, ShelfFault>) -> Result<T, ShelfFault>
        ensures same { result ≡ answer }
        ensures steady { answer ≢ Err ShelfFault.Failed → self.new ≡ self.old }
        ensures fault { answer ≡ Err ShelfFault.Failed → self.new ≡ next_count self.old }
        ensures never_falls { self.old ≤ self.new }
    {
        if let Err(ShelfFault::Failed) = answer {
            self.faults = self.faults.saturating_add(1);
        }
        answer
    }
}

/// A name as a path, which has one part.
fn path_of(name: &Name) -> &str
    ensures same { result.now ≡ name.now }
    ensures short { length result.now ≤ 64 }
{
    match str::from_utf8(name.bytes()) {
        Ok(path) => path,
        Err(_) => unreachable!(),
    }
}

/// Reads a source to its end, or until it has given `most` bytes.
fn first_bytes<S: Source>(alloc: Global, source: &mut S, most: usize) -> Result<Vec<u8>, ShelfFault>
    ensures within { IfOk result (λ bytes. vec_len bytes ≤ most) }
    ensures content { IfOk result (λ bytes. IfSome (S.left source.old) (λ all. bytes.items ≡ take most all)) }

    ensures steady { result ≢ Err ShelfFault.Failed → S.faults source.new ≡ S.faults source.old }
    ensures rose { result ≡ Err ShelfFault.Failed → Rose (S.faults source.old) (S.faults source.new) }
{
    let mut bytes = Vec::new(alloc);
    let mut buf = [0u8; PIECE];
    while bytes.len() < most {
        let room = PIECE.min(most - bytes.len());
        let count = source.read(&mut buf[..room])?;
        if count == 0 {
            return Ok(bytes);
        }
        bytes.extend_from_slice(&buf[..count])?;
    }
    Ok(bytes)
}

/// Writes all of the bytes.
fn write_whole<W: Write>(file: &mut W, bytes: &[u8]) -> io::Result<()>
    ensures written { OnOk result (Appends (W.contents file.old) (W.contents file.new) bytes.now) }
{
    file.write_all(bytes)?;
    file.flush()
}

/// What the answer of an open tells of a file. None where there is no such file.
fn found<F: Drop>(opened: io::Result<F>) -> Result<Option<F>, ShelfFault>
    ensures there { IfOk opened (λ file. result ≡ Ok (Some file)) }
    ensures missing { IfErr opened (λ error. error_kind error ≡ ErrorKind.NotFound → result ≡ Ok None) }
    ensures failed { IfErr opened (λ error. error_kind error ≢ ErrorKind.NotFound → result ≡ Err ShelfFault.Failed) }
{
    match opened {
        Ok(file) => Ok(Some(file)),
        Err(error) => match error.kind() {
            ErrorKind::NotFound => Ok(None),
            _ => Err(ShelfFault::Failed),
        },
    }
}

/// The first bytes of a file, at most `most`, or None where there is no such file.
fn read_file<R: Files>(
    folder: &R,
    alloc: Global,
    name: &Name,
    most: usize,
) -> Result<Option<Vec<u8>>, ShelfFault>
    ensures within { IfOk result (λ found. IfSome found (λ bytes. vec_len bytes ≤ most)) }
{
    match found(fs::open(folder, path_of(name)))? {
        Some(file) => Ok(Some(first_bytes(alloc, &mut InSource::new(file), most)?)),
        None => Ok(None),
    }
}

/// The name under which the file of a name is written. No file that is put or got has it.
fn partial_of(name: &Name) -> ArrayString<PARTIAL_BYTES>
    ensures text { result.bytes ≡ partial_name name.now }
    ensures no_name { ¬ (IsName result.bytes) }
{
    let mut text = ArrayString::new();
    text.push_str(".");
    text.push_str(path_of(name));
    text.push_str(".partial");
    text
}

/// The permissions of the file at a path, or None where there is none, or a link or another thing. A file
/// that nobody may write is refused.
fn permissions_at<R: Files>(folder: &R, path: &str) -> io::Result<Option<Permissions>> {
    match fs::symlink_metadata(folder, path) {
        Ok(there) => {
            let permissions = there.permissions();
            if !there.is_file() {
                return Ok(None);
            }
            if permissions.readonly() {
                return Err(io::Error::from(ErrorKind::PermissionDenied));
            }
            Ok(Some(permissions))
        }
        Err(error) => match error.kind() {
            ErrorKind::NotFound => Ok(None),
            _ => Err(error),
        },
    }
}

/// Makes a file where there is nothing, not even a link, with these permissions or the usual ones.
fn create_with<R: Files>(
    folder: &R,
    path: &str,
    permissions: Option<Permissions>,
) -> io::Result<R::File> {
    let Some(permissions) = permissions else {
        return File::create_new(folder, path);
    };
    let file = OpenOptions::new()
        .write(true)
        .create_new(true)
        .mode(OWNER_ALONE)
        .open(folder, path)?;
    file.set_permissions(permissions)?;
    Ok(file)
}

/// Makes a file where there is nothing, writes all of the bytes to it, and has them brought to the disk.
fn write_new<R: Files>(
    folder: &R,
    path: &str,
    permissions: Option<Permissions>,
    bytes: &[u8],
) -> io::Result<()> {
    let mut file = create_with(folder, path, permissions)?;
    write_whole(&mut file, bytes)?;
    file.sync_all()
}

/// Has the names in the folder brought to the disk. What comes of it is not told: the file stands already.
fn sync_names<R: Files>(folder: &R) {
    if let Ok(names) = fs::open(folder, ".") {
        let _ = names.sync_all();
    }
}

/// Writes all of the bytes to an unfinished file, and gives it the name. Where this fails, the file of the
/// name is as it was, and there is no unfinished one.
fn write_file<R: Files>(folder: &R, name: &Name, bytes: &[u8]) -> io::Result<()> {
    let path = path_of(name);
    let partial = partial_of(name);
    let permissions = permissions_at(folder, path)?;
    // What a put that was killed has left.
    let _ = fs::remove_file(folder, partial.as_str());
    let written = match write_new(folder, partial.as_str(), permissions, bytes) {
        Ok(()) => fs::rename(folder, partial.as_str(), path),
        Err(error) => Err(error),
    };
    match written {
        Ok(()) => sync_names(folder),
        Err(_) => {
            let _ = fs::remove_file(folder, partial.as_str());
        }
    }
    written
}

impl<R: Files> Shelf for FolderShelf<R> {
    ghost use Rattle.std.specs.Prelude.{None};

    ghost files = { λ _. None };

    ghost puts = { λ _. None };

    ghost faults = { λ s. s };

    fn get(
        &mut self,
        alloc: Global,
        name: &Name,
        most: usize,
    ) -> Result<Option<Vec<u8>>, ShelfFault>
        ensures within { IfOk result (λ found. IfSome found (λ bytes. vec_len bytes ≤ most)) }
        ensures steady { result ≢ Err ShelfFault.Failed → self.new ≡ self.old }
        ensures fault { result ≡ Err ShelfFault.Failed → self.new ≡ next_count self.old }
        ensures never_falls { self.old ≤ self.new }
    {
        let answer = read_file(&self.folder, alloc, name, most);
        self.counted(answer)
    }

    fn put(&mut self, name: &Name, bytes: &[u8]) -> Result<(), ShelfFault>
        ensures no_memory { result ≢ Err ShelfFault.Memory }
        ensures steady { result ≢ Err ShelfFault.Failed → self.new ≡ self.old }
        ensures fault { result ≡ Err ShelfFault.Failed → self.new ≡ next_count self.old }
        ensures never_falls { self.old ≤ self.new }
    {
        let answer = write_file(&self.folder, name, bytes).map_err(|_| ShelfFault::Failed);
        self.counted(answer)
    }
}
