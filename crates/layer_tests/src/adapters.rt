use outside_core::{Failed, InSource, OutSink, Sink, Source, read_all, write_all};
use std::io;
use std::io::{ErrorKind, Read, Write};
use std::test::Fail;

/// Is interrupted at its first call, gives or takes one byte at its second, and fails or takes nothing at all later ones.
#[derive(Drop)]
struct Uneven {
    calls: u8,
}

impl Read for Uneven {
    fn read(&mut self, buf: &mut [u8]) -> io::Result<usize> {
        self.calls = self.calls.saturating_add(1);
        match self.calls {
            1 => Err(io::Error::from(ErrorKind::Interrupted)),
            2 if !buf.is_empty() => {
                buf[0] = b'z';
                Ok(1)
            }
            _ => Err(io::Error::from(ErrorKind::BrokenPipe)),
        }
    }
}

impl Write for Uneven {
    fn write(&mut self, buf: &[u8]) -> io::Result<usize> {
        self.calls = self.calls.saturating_add(1);
        match self.calls {
            1 => Err(io::Error::from(ErrorKind::Interrupted)),
            2 if !buf.is_empty() => Ok(1),
            _ => Ok(0),
        }
    }

    fn flush(&mut self) -> io::Result<()> {
        Ok(())
    }
}

#[test]
fn reads_from_a_reader(rt: HostRuntime) -> Result<(), Fail> {
    let mut source = InSource::new(b"half 1 0 0 5".as_slice());
    let bytes = read_all(rt.alloc(), &mut source, 100)?;
    assert_eq!(rt; bytes.as_slice(), b"half 1 0 0 5".as_slice());
    Ok(())
}

#[test]
fn writes_to_a_writer(rt: HostRuntime) {
    let mut room = [b'-'; 8];
    let mut sink = OutSink::new(room.as_mut_slice());
    assert!(rt; write_all(&mut sink, b"status").is_ok());
    assert_eq!(rt; room.as_slice(), b"status--".as_slice());
}

#[test]
fn reads_again_when_interrupted(rt: HostRuntime) {
    let mut source = InSource::new(Uneven { calls: 0 });
    let mut buf = [b'-'; 3];
    assert!(rt; source.read(&mut buf) == Ok(1));
    assert_eq!(rt; buf.as_slice(), b"z--".as_slice());
    assert!(rt; source.read(&mut buf) == Err(Failed));
}

#[test]
fn writes_again_when_interrupted(rt: HostRuntime) {
    let mut sink = OutSink::new(Uneven { calls: 0 });
    assert!(rt; sink.write(b"ab") == Ok(1));
    assert!(rt; sink.write(b"b") == Err(Failed));
}
