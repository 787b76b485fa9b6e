ghost use Rattle.std.specs.Prelude.{◌<◌, ◌^◌, length};

use command_set::Command;
use directory::Directory;
use edit_core::{Modeller, apply};
use mged_words::read_script;
use session_run::Session;
use std::sync::Arc;
use std::test::Fail;
use std::thread::Threads;
use std::vec::Vec;
use version_table::Machine;

/// Whether a session answers `ls` with these lines, at a directory of this object.
fn lists<R: AllocGlobal + Threads + Sync>(
    rt: &R,
    session: &mut Session,
    version: u32,
    made_by: &[u8],
    lines: &[u8],
) -> Result<bool, Fail>
    requires { length made_by.now < 2 ^ 31 }
{
    let alloc = rt.alloc();
    let script = read_script(alloc, made_by)?;
    let mut directory = Directory::new(alloc);
    for line in script.items() {
        if let Command::Edit(edit) = &*line.command {
            if apply(alloc, &mut directory, edit).is_err() {
                return Ok(false);
            }
        }
    }
    let asked = read_script(alloc, b"ls")?;
    let directory = Arc::new(alloc, directory)?;
    let Some(line) = asked.items().first() else {
        return Ok(false);
    };
    if !Modeller::looks(&line.command) {
        return Ok(false);
    }
    let answer = session.one::<R>(alloc, version, &directory, &line.command);
    match &answer.outcome {
        Ok(found) => Ok(answer.version == version && found.body.text() == lines),
        Err(_) => Ok(false),
    }
}

#[test]
fn one_command_is_answered_at_any_version(rt: HostRuntime) -> Result<(), Fail> {
    let alloc = rt.alloc();
    let mut session = Session::open(alloc, 1, Vec::new(alloc))?;
    assert!(rt; lists(&rt, &mut session, 5, b"in a sph 0 0 0 5", b"a\n")?);
    assert!(rt; lists(&rt, &mut session, 5, b"in b sph 0 0 0 5", b"b\n")?);
    assert!(rt; lists(&rt, &mut session, 4, b"", b"")?);
    Ok(())
}
