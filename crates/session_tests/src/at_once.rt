use crate::running::run_script;
use mged_top::Status;
use outside_core::OpenGate;
use std::test::Fail;

#[test]
fn a_session_alone_is_answered_as_by_hand(rt: HostRuntime) -> Result<(), Fail> {
    for workers in ["1", "16"] {
        let script = b"in a sph 0 0 0 5\nls\nkill b\n";
        let ended = run_script(&rt, &["--workers", workers], script, &OpenGate)?;
        assert_eq!(rt; ended.status, Status::SomeRefused);
        assert_eq!(rt;
            ended.sink.bytes(),
            b"order 1 1 1\n1.1 ok v1 0\n1.2 ok v1 1\na\n1.3 refused v1 missing b\n".as_slice()
        );
    }
    Ok(())
}

#[test]
fn two_sessions_are_answered_in_one_of_two_orders(rt: HostRuntime) -> Result<(), Fail> {
    let script = b"@1 in a sph 0 0 0 5\n@2 in b sph 0 0 0 5\n";
    let ended = run_script(&rt, &["--workers", "3"], script, &OpenGate)?;
    assert_eq!(rt; ended.status, Status::Done);
    let text = ended.sink.bytes();
    assert!(rt;
        text == b"order 1 2\n1.1 ok v1 0\n2.1 ok v2 0\n".as_slice()
            || text == b"order 2 1\n1.1 ok v2 0\n2.1 ok v1 0\n".as_slice()
    );
    Ok(())
}
