//! Tests of a `StdSink`: each write to an output that is closed is a fault that is counted.
use nc_outside::{PutFault, Sink};
use real_outside::StdSink;
use std::fmt::Display;
use std::io;
use std::io::ErrorKind;
use std::test::Fail;

/// An output that is closed.
#[derive(Drop)]
struct Closed;

impl Print for Closed {
    /// Fails.
    fn print<D: Display + Drop>(&self, _value: D) -> io::Result<()> {
        Err(io::Error::from(ErrorKind::BrokenPipe))
    }

    /// Fails.
    fn println<D: Display + Drop>(&self, _value: D) -> io::Result<()> {
        Err(io::Error::from(ErrorKind::BrokenPipe))
    }

    /// Fails.
    fn write_all(&self, _bytes: &[u8]) -> io::Result<()> {
        Err(io::Error::from(ErrorKind::BrokenPipe))
    }
}

#[test]
fn each_failed_write_is_counted(rt: HostRuntime) -> Result<(), Fail> {
    let closed = Closed;
    let mut sink = StdSink::new(&closed);
    for count in 1..4u64 {
        assert_eq!(rt; sink.put(b"end done\n"), Err(PutFault::Failed));
        assert_eq!(rt; sink.faults(), count);
    }
    let mut open = StdSink::new(&rt);
    assert_eq!(rt; open.put(b""), Ok(()));
    assert_eq!(rt; open.faults(), 0);
    Ok(())
}
