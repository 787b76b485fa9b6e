//! A shelf that finds no memory for one of its calls, and what a run does then.

use crate::running::run_over;
use item_list::Items;
use mged_top::Status;
use name_core::Name;
use outside_core::{File, OpenGate, Shelf, ShelfFault, VecShelf};
use std::alloc::Global;
use std::marker::Model;
use std::test::Fail;

/// A shelf in memory of which one get, or one put, finds no memory.
#[derive(Drop)]
struct ScarceShelf {
    kept: VecShelf,
    gets: u8,
    puts: u8,
}

impl Model for ScarceShelf {
    ghost use Rattle.outside_core.specs.Views.{ShelfView};

    ghost Value = { ShelfView };

    ghost view = { λ s. s.kept };
}

/// Counts a call, and answers whether it is the one with no memory. At 0 there is none.
fn is_scarce(left: &mut u8) -> bool {
    let is_it = *left == 1;
    *left = left.saturating_sub(1);
    is_it
}

impl Shelf for ScarceShelf {
    ghost use Rattle.std.specs.Prelude.{Some};

    ghost files = { λ s. Some s.files };

    ghost puts = { λ s. Some s.puts };

    ghost faults = { λ s. s.calls.faults };

    fn get(
        &mut self,
        alloc: Global,
        name: &Name,
        most: usize,
    ) -> Result<Option<Vec<u8>>, ShelfFault> {
        if is_scarce(&mut self.gets) {
            return Err(ShelfFault::Memory);
        }
        self.kept.get(alloc, name, most)
    }

    fn put(&mut self, name: &Name, bytes: &[u8]) -> Result<(), ShelfFault> {
        if is_scarce(&mut self.puts) {
            return Err(ShelfFault::Memory);
        }
        self.kept.put(name, bytes)
    }
}

/// Two models and two pictures; the second model has the name of the first, and the second picture that of the file that the
/// run was loaded from.
const SCRIPT: &[u8] = b"in a rpp 0 10 0 10 0 10
save m.asc
rt p.ppm -z 0 15 100 1 32 16 a
r a.r u a
save m.asc
rtedge b.asc -z 0 15 100 1 32 16 a.r
";

const TEXT: &[u8] = b"order 1 1 1 1 1 1
1.1 ok v1 0
1.2 ok v1 1
saved m.asc
1.3 ok v1 1
picture p.ppm 32 16 tiles 2 shot 2 reused 0
1.4 ok v2 0
1.5 ok v2 1
saved m.asc
1.6 ok v2 1
edges b.asc 32 16 white 20
";

const NAMES: [&[u8]; 4] = [b"m.asc", b"p.ppm", b"m.asc", b"b.asc"];

/// A shelf with a model, an empty one, in the file `b.asc`, and an order for the script in the file `o`.
fn shelf_of(alloc: Global, gets: u8, puts: u8) -> Result<ScarceShelf, Fail> {
    let mut files = Vec::new(alloc);
    for (name, bytes) in [
        (b"b.asc".as_slice(), b"".as_slice()),
        (b"o", b"order 1 1 1 1 1 1\n"),
    ] {
        let Ok(name) = Name::read(name) else {
            return Err(Fail::new("no name"));
        };
        let bytes = Items::of_vec(Vec::from_slice(alloc, bytes)?);
        files.push(File { name, bytes })?;
    }
    let kept = VecShelf::new(alloc, files, Vec::new(alloc));
    Ok(ScarceShelf { kept, gets, puts })
}

/// Whether the files that were put are the first of those of a whole run, and so many.
fn are_first(put: &[File], whole: &[File], count: usize) -> bool {
    put.len() == count && whole.get(..count) == Some(put)
}

#[test]
fn a_put_without_memory_leaves_the_text_and_the_files_before_it(
    rt: HostRuntime,
) -> Result<(), Fail> {
    let words = ["--load", "b.asc"];
    let mut whole = shelf_of(rt.alloc(), 0, 0)?;
    let (status, sink) = run_over(&rt, &words, SCRIPT, &mut whole, &OpenGate)?;
    assert_eq!(rt; status, Status::Done);
    assert_eq!(rt; sink.bytes(), TEXT);
    for (file, name) in whole.kept.puts().iter().zip(NAMES) {
        assert_eq!(rt; file.name.bytes(), name);
    }
    assert_eq!(rt; whole.kept.puts().len(), NAMES.len());
    for scarce in 1..=4u8 {
        let mut shelf = shelf_of(rt.alloc(), 0, scarce)?;
        let (status, sink) = run_over(&rt, &words, SCRIPT, &mut shelf, &OpenGate)?;
        assert_eq!(rt; status.number(), 7);
        assert_eq!(rt; sink.bytes(), TEXT);
        assert!(rt;
            are_first(
                shelf.kept.puts(),
                whole.kept.puts(),
                usize::from(scarce) - 1
            )
        );
    }
    Ok(())
}

#[test]
fn a_get_without_memory_leaves_all_unwritten(rt: HostRuntime) -> Result<(), Fail> {
    let words = ["--load", "b.asc", "--replay", "o"];
    for scarce in 1..=3u8 {
        let mut shelf = shelf_of(rt.alloc(), scarce, 0)?;
        let (status, sink) = run_over(&rt, &words, SCRIPT, &mut shelf, &OpenGate)?;
        // There are two gets, so that the third is not asked for.
        let (number, text, puts) = if scarce < 3 {
            (7, b"".as_slice(), 0)
        } else {
            (0, TEXT, NAMES.len())
        };
        assert_eq!(rt; status.number(), number);
        assert_eq!(rt; sink.bytes(), text);
        assert_eq!(rt; shelf.kept.puts().len(), puts);
    }
    Ok(())
}
