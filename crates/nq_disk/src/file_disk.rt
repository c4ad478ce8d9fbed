//! One file as a disk.

ghost use Rattle.std.specs.Prelude.{◌≡◌, ◌+◌, ◌≤◌, ℕ, List, Option, None, true, false, length, drop, IfOk, OnOk};
ghost use Rattle.std.specs.Option.{ForSome};
ghost use Rattle.std.proofs.Common.{inl};
ghost use Rattle.nq_io.specs.Faults.{Rose, count_up};
ghost use Rattle.nq_disk.specs.Bytes.{AreBytes};
ghost use Rattle.nq_disk.specs.Calling.{Counts, IsAllThatIsLeft, LeavesNoMore, LeavesTorn, ReadsFront, Writes};
ghost use Rattle.nq_disk.specs.FileDisk.{Anything, StaysFile, TookAll, unasked, untold};
ghost use Rattle.nq_disk.specs.FileLaws.{stays-itself, stays-on};

use crate::copying::copy_in;
use crate::{Disk, DiskFault, NoMemory};
use std::alloc::Global;
use std::fs::{File, OpenOptions};
use std::io;
use std::io::ErrorKind;
use std::marker::Model;
use std::os::unix::fs::FileExt;
use std::path::Path;

/// How many bytes are read at once.
const PIECE: usize = 4096;

/// A file of the operating system as a disk, which tells nothing of its bytes. It is opened, or made where it is not there, at
/// the first call, and locked, so that two disks never write one file. A sync is `fsync`, and the first one syncs the folder,
/// too. Each error is a fault. Contracts see where the file is, whether it was opened and its name synced, what it took and
/// whether that was synced, and the count of faults. Each count stands still at `u64::MAX`.
#[derive(Drop)]
pub struct FileDisk {
    files: HostRuntime,
    path: String,
    file: Option<File>,
    knows_name: bool,
    end: u64,
    taken: u64,
    is_synced: bool,
    faults: u64,
}

impl Model for FileDisk {
    ghost use Rattle.std.specs.Prelude.{is_some, string_bytes};
    ghost use Rattle.nq_disk.specs.FileDisk.{SeenFile};

    ghost Value = { SeenFile };

    ghost view = { λ d. record {
      path = string_bytes d.path;
      is_open = is_some d.file;
      name_lasts = d.knows_name;
      asked = record { end = d.end; taken = d.taken; is_synced = d.is_synced };
      faults = d.faults;
    } };
}

/// Opens a file, or makes it, and locks it.
fn open_locked(files: &HostRuntime, path: &str) -> io::Result<File> {
    let file = OpenOptions::new()
        .read(true)
        .write(true)
        .create(true)
        .open(files, path)?;
    file.try_lock()?;
    Ok(file)
}

/// Syncs the folder in which a file lies, so that the file's name lasts.
fn sync_folder(files: &HostRuntime, path: &str) -> io::Result<()> {
    let folder = match Path::new(path).parent() {
        Some(parent) => parent.as_str(),
        None => ".",
    };
    let name = if folder.is_empty() { "." } else { folder };
    File::open(files, name)?.sync_all()
}

/// The place so many bytes further on.
fn further(place: u64, count: usize) -> io::Result<u64>
    ensures { IfOk result (λ further. further ≡ place + count) }
{
    match place.checked_add(count as u64) {
        Some(further) => Ok(further),
        None => Err(io::Error::from(ErrorKind::InvalidInput)),
    }
}

/// Reads the bytes from a place on into the front of `into`, until it is full or the file ends, and says how many.
fn read_from(file: &File, place: u64, into: &mut [u8]) -> io::Result<usize>
    ensures within { IfOk result (λ count. count ≤ length into.old) }
    ensures rest { IfOk result (λ count. drop count into.new ≡ drop count into.old) }
{
    let mut count = 0;
    let mut piece = [0; PIECE];
    while count < into.len() {
        let most = PIECE.min(into.len() - count);
        let came = file.read_at(&mut piece[..most], further(place, count)?)?;
        if came == 0 {
            break;
        }
        copy_in(into, count, &piece[..came]);
        count += came;
    }
    Ok(count)
}

impl FileDisk {
    /// The file at a path, which is opened at the first call.
    ///
    /// # Errors
    ///
    /// Only want of memory.
    pub fn new(alloc: Global, files: HostRuntime, path: &str) -> Result<FileDisk, NoMemory>
        ensures { IfOk result (λ disk. disk ≡ record { path = path.now; is_open = false; name_lasts = false; asked = unasked; faults = 0 }) }
    {
        let path = String::from_str(alloc, path)?;
        Ok(FileDisk {
            files,
            path,
            file: None,
            knows_name: false,
            end: 0,
            taken: 0,
            is_synced: false,
            faults: 0,
        })
    }

    /// Counts a fault.
    fn fail(&mut self) -> DiskFault
        ensures counted { self.new ≡ record self.old { faults = count_up self.old.faults } }
        ensures rose { Rose self.old.faults self.new.faults }
        ensures rises { self.old.faults ≤ self.new.faults }
    {
        self.faults = self.faults.saturating_add(1);
        DiskFault::Failed
    }

    /// Opens the file, if that was not done yet.
    fn open(&mut self) -> io::Result<()>
        ensures path { self.new.path ≡ self.old.path }
        ensures same { self.new.faults ≡ self.old.faults }
        ensures asked { self.new.asked ≡ self.old.asked }
        ensures opened { OnOk result (self.new.is_open ≡ true) }
    {
        if self.file.is_some() {
            return Ok(());
        }
        self.file = Some(open_locked(&self.files, self.path.as_str())?);
        Ok(())
    }

    /// The file, where it was opened.
    fn file(&self) -> io::Result<&File> {
        match &self.file {
            Some(file) => Ok(file),
            None => Err(io::Error::from(ErrorKind::NotFound)),
        }
    }

    /// How many bytes the file has.
    fn measure(&mut self) -> io::Result<u64>
        ensures path { self.new.path ≡ self.old.path }
        ensures same { self.new.faults ≡ self.old.faults }
        ensures asked { self.new.asked ≡ self.old.asked }
        ensures opened { OnOk result (self.new.is_open ≡ true) }
    {
        self.open()?;
        Ok(self.file()?.metadata()?.len())
    }

    /// Reads the bytes from a place on, and says how many.
    fn read_some(&mut self, place: u64, into: &mut [u8]) -> io::Result<usize>
        ensures path { self.new.path ≡ self.old.path }
        ensures same { self.new.faults ≡ self.old.faults }
        ensures asked { self.new.asked ≡ self.old.asked }
        ensures opened { OnOk result (self.new.is_open ≡ true) }
        ensures within { IfOk result (λ count. count ≤ length into.old) }
        ensures rest { IfOk result (λ count. drop count into.new ≡ drop count into.old) }
    {
        self.open()?;
        read_from(self.file()?, place, into)
    }

    /// Asks the file to write bytes at a place, and says how many it took.
    fn write_some(&mut self, place: u64, bytes: &[u8]) -> io::Result<usize>
        ensures path { self.new.path ≡ self.old.path }
        ensures same { self.new.faults ≡ self.old.faults }
        ensures stays_open { self.new.is_open ≡ self.old.is_open }
        ensures within { IfOk result (λ count. count ≤ length bytes.now) }
        ensures took { IfOk result (λ count. TookAll place count self.old.asked self.new.asked) }
        ensures unsynced { self.new.asked.is_synced ≡ false }
    {
        self.is_synced = false;
        let count = self.file()?.write_at(bytes, place)?;
        self.end = further(place, count)?;
        self.taken = self.taken.saturating_add(count as u64);
        Ok(count)
    }

    /// Writes all the bytes at a place.
    fn write_all(&mut self, place: u64, bytes: &[u8]) -> io::Result<()>
        ensures path { self.new.path ≡ self.old.path }
        ensures same { self.new.faults ≡ self.old.faults }
        ensures opened { OnOk result (self.new.is_open ≡ true) }
        ensures took { OnOk result (TookAll place (length bytes.now) self.old.asked self.new.asked) }
        ensures unsynced { OnOk result (self.new.asked.is_synced ≡ false) }
    {
        self.open()?;
        let mut count = self.write_some(place, bytes)?;
        while count < bytes.len() {
            match self.write_some(further(place, count)?, &bytes[count..])? {
                0 => return Err(io::Error::from(ErrorKind::WriteZero)),
                taken => count += taken,
            }
        }
        Ok(())
    }

    /// Asks the machine to sync the file.
    fn sync_file(&mut self) -> io::Result<()>
        ensures path { self.new.path ≡ self.old.path }
        ensures same { self.new.faults ≡ self.old.faults }
        ensures stays_open { self.new.is_open ≡ self.old.is_open }
        ensures synced { OnOk result (self.new.asked.is_synced ≡ true) }
    {
        self.file()?.sync_all()?;
        self.is_synced = true;
        Ok(())
    }

    /// Syncs the file, and its folder if that was not done yet.
    fn sync_all(&mut self) -> io::Result<()>
        ensures path { self.new.path ≡ self.old.path }
        ensures same { self.new.faults ≡ self.old.faults }
        ensures opened { OnOk result (self.new.is_open ≡ true) }
        ensures synced { OnOk result (self.new.asked.is_synced ≡ true) }
        ensures lasts { OnOk result (self.new.name_lasts ≡ true) }
    {
        self.open()?;
        self.sync_file()?;
        if !self.knows_name {
            sync_folder(&self.files, self.path.as_str())?;
            self.knows_name = true;
        }
        Ok(())
    }
}

impl Disk for FileDisk {
    ghost told = { untold };

    ghost faults = { λ disk. disk.faults };

    ghost may_leave = { λ _. Anything };

    ghost follows = { StaysFile };

    ghost leaves = { λ _ _. Anything };

    ghost follows_itself = { stays-itself };

    ghost follows_on = { stays-on };

    ghost rises = { λ first last goes. goes.rises };

    ghost silent = { λ _ _ _ none. none };

    ghost told_may_stay = { λ _ _ _. tt };

    ghost leaves_now = { λ _ _ _. tt };

    ghost leaves_ends = { λ _ _ _ _ _. tt };

    ghost parts = { λ _ _ _ _ _ _ _. inl tt };

    ghost joins = { λ _ _ _ _ _ _ _. tt };

    fn size(&mut self) -> Result<u64, DiskFault>
        // As of any disk.
        ensures told { ForSome (untold self.old) (λ disk. IfOk result (λ size. size ≡ length disk)) }
        ensures bytes { OnOk result (ForSome (untold self.old) AreBytes) }
        ensures same { untold self.new ≡ untold self.old }
        ensures cause { Counts result self.old.faults self.new.faults }
        ensures follows { StaysFile self.old self.new }
        ensures leaves { LeavesNoMore Anything Anything }

        // Of this one.
        ensures opened { OnOk result (self.new.is_open ≡ true) }
        ensures asked { self.new.asked ≡ self.old.asked }
    {
        match self.measure() {
            Ok(size) => Ok(size),
            Err(_) => Err(self.fail()),
        }
    }

    fn read(&mut self, place: u64, into: &mut [u8]) -> Result<usize, DiskFault>
        // As of any disk.
        ensures told { ForSome (untold self.old) (λ disk. IfOk result (λ count. ReadsFront count place disk into.new)) }
        ensures within { IfOk result (λ count. count ≤ length into.old) }
        ensures rest { IfOk result (λ count. drop count into.new ≡ drop count into.old) }
        ensures same { untold self.new ≡ untold self.old }
        ensures cause { Counts result self.old.faults self.new.faults }
        ensures follows { StaysFile self.old self.new }
        ensures leaves { LeavesNoMore Anything Anything }

        // Of this one.
        ensures opened { OnOk result (self.new.is_open ≡ true) }
        ensures asked { self.new.asked ≡ self.old.asked }
    {
        match self.read_some(place, into) {
            Ok(count) => Ok(count),
            Err(_) => Err(self.fail()),
        }
    }

    fn write_at(&mut self, place: u64, bytes: &[u8]) -> Result<(), DiskFault>
        // As of any disk.
        ensures writes { Writes result place bytes.now (untold self.old) (untold self.new) }
        ensures cause { Counts result self.old.faults self.new.faults }
        ensures follows { StaysFile self.old self.new }
        ensures leaves { LeavesTorn place (length bytes.now) Anything Anything }

        // Of this one.
        ensures opened { OnOk result (self.new.is_open ≡ true) }
        ensures took { OnOk result (TookAll place (length bytes.now) self.old.asked self.new.asked) }
        ensures unsynced { OnOk result (self.new.asked.is_synced ≡ false) }
    {
        match self.write_all(place, bytes) {
            Ok(()) => Ok(()),
            Err(_) => Err(self.fail()),
        }
    }

    fn sync(&mut self) -> Result<(), DiskFault>
        // As of any disk.
        ensures settles { OnOk result (IsAllThatIsLeft (untold self.old) Anything) }
        ensures same { untold self.new ≡ untold self.old }
        ensures cause { Counts result self.old.faults self.new.faults }
        ensures follows { StaysFile self.old self.new }
        ensures leaves { LeavesNoMore Anything Anything }

        // Of this one.
        ensures opened { OnOk result (self.new.is_open ≡ true) }
        ensures synced { OnOk result (self.new.asked.is_synced ≡ true) }
        ensures lasts { OnOk result (self.new.name_lasts ≡ true) }
    {
        match self.sync_all() {
            Ok(()) => Ok(()),
            Err(_) => Err(self.fail()),
        }
    }
}
