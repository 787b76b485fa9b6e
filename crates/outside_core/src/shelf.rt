ghost use Rattle.std.specs.Prelude.{◌≡◌, ◌≢◌, ◌≤◌, ◌↔◌, ◌++◌, ◌∷◌, [], reverse, find, take, vec_len, IfOk, IfSome, IsErr, OnOk, OnErr, Some, option_map};
ghost use Rattle.std.specs.Option.{option_copied};
ghost use Rattle.name_core.specs.Same.{same_name};
ghost use Rattle.outside_core.specs.Faults.{Rose};
ghost use Rattle.outside_core.specs.Files.{Gives, SetsFile, bytes_in};
ghost use Rattle.outside_core.specs.Told.{Stays, Grows};
ghost use Rattle.outside_core.specs.CallCounts.{NextIsListed, counted, faulted};

use crate::calls::Calls;
use crate::traits::{File, Shelf, ShelfFault};
use item_list::Items;
use memory_core::Memory;
use name_core::Name;
use std::alloc::Global;
use std::marker::Model;

/// A shelf in memory. It tells its files and the list of puts.
#[derive(Debug, Drop)]
pub struct VecShelf {
    alloc: Global,
    files: Items<File>,
    given: usize,
    calls: Calls,
}

impl Model for VecShelf {
    ghost use Rattle.std.specs.Prelude.{drop, length, ◌≤◌};
    ghost use Rattle.outside_core.specs.Views.{ShelfView};

    ghost Value = { ShelfView };

    ghost view = { λ s. record { files = s.files; puts = drop s.given s.files; calls = s.calls } };

    ghost invariant = { λ s. s.given ≤ length s.files };
}

impl VecShelf {
    /// A shelf of these files. Where a name stands among them more than once, the last file of that name
    /// counts. Its calls with the listed numbers fail, counted from 1, gets and puts together. No memory is
    /// taken here.
    pub fn new(alloc: Global, files: Vec<File>, fail_at: Vec<u64>) -> VecShelf
        ensures { result ≡ record { files = files.items; puts = []; calls = record { made = 0; faults = 0; fail_at = fail_at.items } } }
    {
        let given = files.len();
        VecShelf {
            alloc,
            files: Items::of_vec(files),
            given,
            calls: Calls::new(fail_at),
        }
    }

    /// Lends the files that were put, in order.
    pub fn puts(&self) -> &[File]
        ensures { result.now ≡ self.now.puts }
    {
        &self.files.items()[self.given..]
    }
}

fn last_of<'a>(files: &'a [File], name: &Name) -> Option<&'a File>
    ensures { option_copied result ≡ find (λ file. same_name file.name name.now) (reverse files.now) }
{
    files.iter().rev().find(|file| file.name == *name)
}

fn first_bytes(alloc: Global, bytes: &[u8], most: usize) -> Result<Vec<u8>, Memory>
    ensures { IfOk result (λ front. front.items ≡ take most bytes.now) }
{
    let end = most.min(bytes.len());
    Ok(Vec::from_slice(alloc, &bytes[..end])?)
}

fn first_bytes_of(
    alloc: Global,
    files: &[File],
    name: &Name,
    most: usize,
) -> Result<Option<Vec<u8>>, Memory>
    ensures content { IfOk result (λ found. option_map (λ bytes. bytes.items) found ≡ option_map (take most) (bytes_in files.now name.now)) }
    ensures within { IfOk result (λ found. IfSome found (λ bytes. vec_len bytes ≤ most)) }
{
    match last_of(files, name) {
        Some(file) => Ok(Some(first_bytes(alloc, file.bytes.items(), most)?)),
        None => Ok(None),
    }
}

impl Shelf for VecShelf {
    ghost files = { λ s. Some s.files };

    ghost puts = { λ s. Some s.puts };

    ghost faults = { λ s. s.calls.faults };

    fn get(
        &mut self,
        alloc: Global,
        name: &Name,
        most: usize,
    ) -> Result<Option<Vec<u8>>, ShelfFault>
        ensures within { IfOk result (λ found. IfSome found (λ bytes. vec_len bytes ≤ most)) }
        ensures content { IfOk result (λ found. Gives (Some self.old.files) name.now most (option_map (λ bytes. bytes.items) found)) }
        ensures files_stay { Stays (Some self.old.files) (Some self.new.files) }
        ensures puts_stay { Stays (Some self.old.puts) (Some self.new.puts) }

        ensures never_falls { self.old.calls.faults ≤ self.new.calls.faults }
        ensures steady { result ≢ Err ShelfFault.Failed → self.new.calls.faults ≡ self.old.calls.faults }
        ensures rose { result ≡ Err ShelfFault.Failed → Rose self.old.calls.faults self.new.calls.faults }

        ensures fails { (result ≡ Err ShelfFault.Failed) ↔ NextIsListed self.old.calls }
        ensures calls { result ≢ Err ShelfFault.Failed → self.new.calls ≡ counted self.old.calls }
        ensures fault { result ≡ Err ShelfFault.Failed → self.new.calls ≡ faulted self.old.calls }
    {
        self.calls.next()?;
        Ok(first_bytes_of(alloc, self.files.items(), name, most)?)
    }

    fn put(&mut self, name: &Name, bytes: &[u8]) -> Result<(), ShelfFault>
        ensures last { OnOk result (self.new.files ≡ self.old.files ++ record { name = name.now; bytes = bytes.now } ∷ []) }
        ensures set { OnOk result (SetsFile (Some self.old.files) (Some self.new.files) name.now bytes.now) }
        ensures added { OnOk result (Grows (Some self.old.puts) (Some self.new.puts) (record { name = name.now; bytes = bytes.now })) }
        ensures files_stay { OnErr result (Stays (Some self.old.files) (Some self.new.files)) }
        ensures puts_stay { OnErr result (Stays (Some self.old.puts) (Some self.new.puts)) }

        ensures never_falls { self.old.calls.faults ≤ self.new.calls.faults }
        ensures steady { result ≢ Err ShelfFault.Failed → self.new.calls.faults ≡ self.old.calls.faults }
        ensures rose { result ≡ Err ShelfFault.Failed → Rose self.old.calls.faults self.new.calls.faults }

        ensures fails { (result ≡ Err ShelfFault.Failed) ↔ NextIsListed self.old.calls }
        ensures calls { result ≢ Err ShelfFault.Failed → self.new.calls ≡ counted self.old.calls }
        ensures fault { result ≡ Err ShelfFault.Failed → self.new.calls ≡ faulted self.old.calls }
    {
        self.calls.next()?;
        let bytes = Items::of_vec(Vec::from_slice(self.alloc, bytes)?);
        self.files.push(File { name: *name, bytes })?;
        Ok(())
    }
}
