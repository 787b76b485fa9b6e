//! What is placed again, and what is not.

use crate::{Memo, prepare_again};
use directory::Directory;
use lattice_core::V3;
use name_core::Name;
use object_set::Object;
use prim_sphere::Sphere;
use solid_set::Solid;
use std::alloc::Global;
use std::test::Fail;

/// A directory that has a ball of that name.
fn directory_of(alloc: Global, name: &Name) -> Result<Directory, Fail> {
    let ball = Solid::Sphere(Sphere::new(V3 { x: 0, y: 0, z: 0 }, 10)?);
    let mut directory = Directory::new(alloc);
    directory.put(name, Object::of_solid(alloc, ball))?;
    Ok(directory)
}

/// How many solids are placed where the scene of a name is prepared once more.
fn placed_for(
    alloc: Global,
    directory: &Directory,
    name: &Name,
    memo: &mut Memo,
) -> Result<u32, Fail> {
    prepare_again(alloc, directory, &[*name], memo)?;
    Ok(memo.placed())
}

#[test]
fn a_solid_that_stays_is_not_placed_again(rt: HostRuntime) -> Result<(), Fail> {
    let alloc = rt.alloc();
    let name = Name::read(b"s")?;
    let directory = directory_of(alloc, &name)?;
    let mut memo = Memo::new(alloc);
    let first = placed_for(alloc, &directory, &name, &mut memo)?;
    let again = placed_for(alloc, &directory, &name, &mut memo)?;
    assert_eq!(rt; first, 1);
    assert_eq!(rt; again, 0);
    Ok(())
}
