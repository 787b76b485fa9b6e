ghost use Rattle.std.specs.Prelude.{◌≡◌};

use name_core::Name;
use outside_core::{FolderShelf, Shelf, ShelfFault};
use std::alloc::Global;
use std::fs;
use std::rt::Files;
use std::test::Fail;

/// More bytes than are read at once.
const LONG: usize = 20_000;

/// Removes the files of these tests, where they are there.
fn clear<R: Files>(folder: &R) {
    let _ = fs::remove_file(folder, "shelf.one");
    let _ = fs::remove_file(folder, "shelf.two");
}

/// Whether the shelf gives these bytes, of which at most `most` are asked for.
fn gives<S: Shelf>(
    alloc: Global,
    shelf: &mut S,
    name: &Name,
    most: usize,
    bytes: &[u8],
) -> Result<bool, ShelfFault> {
    match shelf.get(alloc, name, most)? {
        Some(found) => Ok(found.as_slice() == bytes),
        None => Ok(false),
    }
}

/// Takes a shelf of which two calls failed.
fn has_two_faults<R: Files>(_shelf: &FolderShelf<R>)
    requires { _shelf.now ≡ 2 }
{}

/// Whether a put and a get at a new shelf fail. Both count as faults then.
fn both_fail<R: Files>(folder: &R, alloc: Global, name: &Name) -> bool {
    let mut shelf = FolderShelf::new(folder);
    let Err(ShelfFault::Failed) = shelf.put(name, b"ball") else {
        return false;
    };
    let Err(ShelfFault::Failed) = shelf.get(alloc, name, 9) else {
        return false;
    };
    has_two_faults(&shelf);
    true
}

#[test]
fn files_of_the_folder_are_put_and_got(rt: HostRuntime) -> Result<(), Fail> {
    let alloc = rt.alloc();
    let one = Name::read(b"shelf.one")?;
    let two = Name::read(b"shelf.two")?;
    clear(&rt);
    let mut shelf = FolderShelf::new(&rt);
    assert!(rt; shelf.get(alloc, &one, 9)?.is_none());
    shelf.put(&one, b"a\0b\r\n\xff\x80 ")?;
    assert!(rt; shelf.get(alloc, &two, 9)?.is_none());
    shelf.put(&two, b"two\n")?;
    assert_eq!(rt;
        fs::read(&rt, "shelf.one")?.as_slice(),
        b"a\0b\r\n\xff\x80 ".as_slice()
    );
    assert_eq!(rt; fs::read(&rt, "shelf.two")?.as_slice(), b"two\n".as_slice());
    assert!(rt; gives(alloc, &mut shelf, &one, 9, b"a\0b\r\n\xff\x80 ")?);
    assert!(rt; gives(alloc, &mut shelf, &one, 3, b"a\0b")?);
    assert!(rt; gives(alloc, &mut shelf, &two, 9, b"two\n")?);
    shelf.put(&one, b"new")?;
    assert_eq!(rt; fs::read(&rt, "shelf.one")?.as_slice(), b"new".as_slice());
    assert!(rt; gives(alloc, &mut shelf, &one, 9, b"new")?);
    let long = [b'x'; LONG];
    shelf.put(&one, &long)?;
    assert!(rt; gives(alloc, &mut shelf, &one, 2 * LONG, &long)?);
    assert!(rt; gives(alloc, &mut shelf, &two, 9, b"two\n")?);
    shelf.put(&one, b"")?;
    assert!(rt; gives(alloc, &mut shelf, &one, 9, b"")?);
    clear(&rt);
    Ok(())
}

#[test]
fn a_folder_in_place_of_a_file_is_a_fault(rt: HostRuntime) -> Result<(), Fail> {
    let name = Name::read(b"shelf.dir")?;
    let _ = fs::create_dir(&rt, "shelf.dir");
    assert!(rt; both_fail(&rt, rt.alloc(), &name));
    fs::remove_dir(&rt, "shelf.dir")?;
    Ok(())
}
