//! Runs in which threads meet, and what a run tells its gate.

use crate::gates::{EditMeetsPicture, EventRecord, SessionsMeet, WorkersMeet};
use crate::running::run_script;
use mged_top::Status;
use std::test::Fail;

/// Session 2 removes a box while session 1 makes a picture of it.
const TWO_SESSIONS: &[u8] = b"@1 in a rpp 0 10 0 10 0 10
@1 in b rpp 20 30 0 10 0 10
@1 rt p.ppm -z 0 15 100 1 32 16 a b
@2 in c sph 0 0 0 5
@2 kill b
";

/// A picture of two boxes that stand in a tile each.
const ONE_PICTURE: &[u8] = b"in a rpp 0 10 0 10 0 10
in b rpp 20 30 0 10 0 10
r a.r u a
r b.r u b
rt p.ppm -z 0 15 100 1 32 16 a.r b.r
";

/// The same picture, and then an edit that gives one of the boxes another colour.
const PICTURE_AND_EDIT: &[u8] = b"in a rpp 0 10 0 10 0 10
in b rpp 20 30 0 10 0 10
r a.r u a
r b.r u b
rt p.ppm -z 0 15 100 1 32 16 a.r b.r
cattr b.r rgb 255 0 0
";

/// A check of the two boxes, and then an edit that gives one of them another colour.
const CHECK_AND_EDIT: &[u8] = b"in a rpp 0 10 0 10 0 10
in b rpp 20 30 0 10 0 10
r a.r u a
r b.r u b
rtcheck -z 0 15 100 1 32 16 a.r b.r
cattr b.r rgb 255 0 0
";

/// Two edits, and between them one that is refused.
const REFUSED_EDIT: &[u8] = b"in a sph 0 0 0 1
kill c
in b sph 0 0 0 1
";

/// The same picture, then with another colour of one box, and once more.
const THREE_PICTURES: &[u8] = b"in a rpp 0 10 0 10 0 10
in b rpp 20 30 0 10 0 10
r a.r u a
r b.r u b
rt p.ppm -z 0 15 100 1 32 16 a.r b.r
cattr b.r rgb 255 0 0
rt p.ppm -z 0 15 100 1 32 16 a.r b.r
rt p.ppm -z 0 15 100 1 32 16 a.r b.r
";

/// Whether a pixel of a file with 32 columns is white, or None where the file is too short.
fn is_white(file: &[u8], column: u8, row: u8) -> Option<bool> {
    let at = 13 + 3 * (32 * usize::from(row) + usize::from(column));
    let pixel = file.get(at..at + 3)?;
    Some(pixel == [255u8, 255, 255].as_slice())
}

#[test]
fn a_picture_is_of_its_version_while_another_session_removes_a_box(
    rt: HostRuntime,
) -> Result<(), Fail> {
    let gate = SessionsMeet::new();
    let ended = run_script(&rt, &[], TWO_SESSIONS, &gate)?;
    assert!(rt; gate.have_met());
    assert_eq!(rt; ended.status, Status::Done);
    assert!(rt; ended.sink.bytes().ends_with(b"\n2.2 ok v4 0\n".as_slice()));
    let [file] = ended.shelf.puts() else {
        return Err(Fail::new("not one file"));
    };
    assert_eq!(rt; file.bytes.items().len(), 1549);
    assert!(rt; is_white(file.bytes.items(), 5, 10) == Some(true));
    assert!(rt; is_white(file.bytes.items(), 15, 10) == Some(false));
    assert!(rt; is_white(file.bytes.items(), 25, 10) == Some(true));
    Ok(())
}

#[test]
fn two_workers_shoot_the_tiles_of_one_picture_at_once(rt: HostRuntime) -> Result<(), Fail> {
    let gate = WorkersMeet::new();
    let ended = run_script(&rt, &["--workers", "2"], ONE_PICTURE, &gate)?;
    assert!(rt; gate.have_met());
    assert_eq!(rt; ended.status, Status::Done);
    assert!(rt;
        ended.sink.bytes().ends_with(b"\npicture p.ppm 32 16 tiles 2 shot 2 reused 0\n".as_slice())
    );
    Ok(())
}

/// The session's own thread is held meanwhile, so that both are threads beside it.
#[test]
fn two_workers_shoot_while_their_session_is_at_an_edit(rt: HostRuntime) -> Result<(), Fail> {
    let gate = WorkersMeet::new();
    let ended = run_script(&rt, &["--workers", "2"], PICTURE_AND_EDIT, &gate)?;
    assert!(rt; gate.have_met());
    assert_eq!(rt; ended.status, Status::Done);
    Ok(())
}

#[test]
fn an_edit_is_committed_while_the_picture_before_it_is_shot(rt: HostRuntime) -> Result<(), Fail> {
    for workers in ["1", "2"] {
        let gate = EditMeetsPicture::new();
        let ended = run_script(&rt, &["--workers", workers], PICTURE_AND_EDIT, &gate)?;
        assert!(rt; gate.have_met(), "with --workers {workers}");
        assert_eq!(rt; ended.status, Status::Done);
        assert!(rt;
            ended.sink.bytes().ends_with(
                b"\n1.5 ok v4 1\npicture p.ppm 32 16 tiles 2 shot 2 reused 0\n1.6 ok v5 0\n".as_slice()
            )
        );
        let [file] = ended.shelf.puts() else {
            return Err(Fail::new("not one file"));
        };
        assert!(rt; is_white(file.bytes.items(), 25, 10) == Some(true));
    }
    Ok(())
}

#[test]
fn an_edit_is_committed_while_the_check_before_it_is_shot(rt: HostRuntime) -> Result<(), Fail> {
    for workers in ["1", "2"] {
        let gate = EditMeetsPicture::new();
        let ended = run_script(&rt, &["--workers", workers], CHECK_AND_EDIT, &gate)?;
        assert!(rt; gate.have_met(), "with --workers {workers}");
        assert_eq!(rt; ended.status, Status::Done);
        assert!(rt;
            ended
                .sink
                .bytes()
                .ends_with(b"\n1.5 ok v4 0\n1.6 ok v5 0\n".as_slice())
        );
    }
    Ok(())
}

#[test]
fn tiles_that_are_not_kept_are_begun(rt: HostRuntime) -> Result<(), Fail> {
    let gate = EventRecord::new(rt.alloc())?;
    let ended = run_script(&rt, &[], THREE_PICTURES, &gate)?;
    assert_eq!(rt; ended.status, Status::Done);
    assert!(rt; gate.has_begun(&[(5, 0), (5, 1), (7, 1)]));
    assert!(rt; gate.has_committed_once(&[1, 2, 3, 4, 5]));
    assert!(rt;
        ended.sink.bytes().ends_with(b"\npicture p.ppm 32 16 tiles 2 shot 0 reused 2\n".as_slice())
    );
    Ok(())
}

#[test]
fn accepted_edits_are_told_and_refused_ones_are_not(rt: HostRuntime) -> Result<(), Fail> {
    let gate = EventRecord::new(rt.alloc())?;
    let ended = run_script(&rt, &[], REFUSED_EDIT, &gate)?;
    assert_eq!(rt; ended.status, Status::SomeRefused);
    assert!(rt; gate.has_begun(&[]));
    assert!(rt; gate.has_committed_once(&[1, 2]));
    Ok(())
}
