//! A flush that fails, as none of the streams of a process does.

use camel_replay_lib::{ReplayFault, replay};
use camel_tbcd::Profile;
use std::alloc::Global;
use std::io;
use std::io::{ErrorKind, Write};

// A writer that takes all, and fails to flush.
#[derive(Drop)]
struct Unflushed;

impl Write for Unflushed {
    fn write(&mut self, buf: &[u8]) -> io::Result<usize> {
        Ok(buf.len())
    }

    fn flush(&mut self) -> io::Result<()> {
        Err(io::Error::from(ErrorKind::Other))
    }
}

fn fault_of(alloc: Global, script: &str) -> Option<ReplayFault> {
    replay(alloc, script.as_bytes(), &mut Unflushed, 1, Profile::One).err()
}

fn flush_fault(number: u64) -> Option<ReplayFault> {
    Some(ReplayFault {
        number: Some(number),
        code: 208,
    })
}

#[test]
fn a_failed_flush_is_a_fault_of_the_last_record(rt: HostRuntime) {
    assert!(rt; fault_of(rt.alloc(), "publish\npublish\n") == flush_fault(2));
    assert!(rt; fault_of(rt.alloc(), "") == flush_fault(0));
}
