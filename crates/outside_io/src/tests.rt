//! Shelves and sinks that fail at listed calls, and files of the system.
ghost use Rattle.std.specs.Prelude.{IfOk};
ghost use Rattle.outside_io.specs.Reading.{NamesDiffer};

use crate::{
    Failed, FileShelf, Gate, MemShelf, MemSink, NoGate, Point, Shelf, ShelfFault, Sink, StdSink,
};
use items::Items;
use std::alloc::{AllocError, Global};
use std::io::{ErrorKind, Write};
use std::test::Fail;
use std::{fs, io};

/// A list of one file `a` of three bytes.
fn one_file(alloc: Global) -> Result<Items<(Items<u8>, Items<u8>)>, AllocError>
    ensures { IfOk result (λ files. NamesDiffer files) }
{
    let mut files = Items::new(alloc);
    let name = Items::from_slice(alloc, b"a")?;
    let bytes = Items::from_slice(alloc, b"xyz")?;
    if files.push((name, bytes)).is_err() {
        return Err(AllocError);
    }
    Ok(files)
}

#[test]
fn a_shelf_in_memory_gives_its_files_and_fails_where_told(rt: HostRuntime) -> Result<(), Fail> {
    let alloc = rt.alloc();
    let mut shelf = MemShelf::make(one_file(alloc)?, Items::from_slice(alloc, &[4])?);
    assert_eq!(rt; shelf.read(alloc, "a", 3)?.as_slice(), b"xyz".as_slice());
    assert_eq!(rt;
        shelf.read(alloc, "a", 2).err(),
        Some(ShelfFault::TooLong { count: 3 })
    );
    assert_eq!(rt; shelf.read(alloc, "b", 2).err(), Some(ShelfFault::Absent));
    assert_eq!(rt; shelf.read(alloc, "a", 3).err(), Some(ShelfFault::Failed));
    assert_eq!(rt; shelf.read(alloc, "a", 9)?.len(), 3);
    Ok(())
}

#[test]
fn a_sink_in_memory_takes_what_it_has_room_for(rt: HostRuntime) -> Result<(), Fail> {
    let alloc = rt.alloc();
    let mut sink = MemSink::make(alloc, Items::from_slice(alloc, &[3])?);
    assert_eq!(rt; sink.write(b"ab"), Err(Failed), "no room yet");
    sink.reserve(5)?;
    sink.write(b"ab")?;
    assert_eq!(rt; sink.write(b"c"), Err(Failed), "the third call is listed");
    assert_eq!(rt; sink.write(b"cdef"), Err(Failed), "one byte past the room");
    sink.write(b"cde")?;
    assert_eq!(rt; sink.written(), b"abcde".as_slice());
    Ok(())
}

#[test]
fn a_file_is_read_up_to_the_limit(rt: HostRuntime) -> Result<(), Fail> {
    let alloc = rt.alloc();
    let bytes = vec![in alloc; 7u8; 20_000]?;
    fs::write(&rt, "outside_io_read", &bytes)?;
    let mut shelf = FileShelf::make(&rt);
    let whole = shelf.read(alloc, "outside_io_read", 20_000);
    let cut = shelf.read(alloc, "outside_io_read", 19_999).err();
    fs::remove_file(&rt, "outside_io_read")?;
    assert_eq!(rt; whole?.as_slice(), bytes.as_slice());
    assert!(rt; matches!(cut, Some(ShelfFault::TooLong { count: 20_000 })));
    assert_eq!(rt;
        shelf.read(alloc, "outside_io_read", 9).err(),
        Some(ShelfFault::Absent)
    );
    assert_eq!(rt; shelf.read(alloc, ".", 9).err(), Some(ShelfFault::Failed));
    Ok(())
}

#[test]
fn an_output_gets_all_bytes(rt: HostRuntime) -> Result<(), Fail> {
    let mut sink = StdSink::make(fs::create(&rt, "outside_io_write")?);
    sink.write(b"two ")?;
    sink.write(b"")?;
    sink.write(b"pieces")?;
    let bytes = fs::read(&rt, "outside_io_write")?;
    fs::remove_file(&rt, "outside_io_write")?;
    assert_eq!(rt; bytes.as_slice(), b"two pieces".as_slice());
    Ok(())
}

/// A writer that takes at most two bytes at a time, and no more than it has room for.
#[derive(Drop)]
struct Narrow {
    room: usize,
    ends_in_error: bool,
}

impl Write for Narrow {
    fn write(&mut self, buf: &[u8]) -> io::Result<usize> {
        if self.room == 0 && self.ends_in_error {
            return Err(io::Error::from(ErrorKind::Other));
        }
        let count = buf.len().min(self.room).min(2);
        self.room -= count;
        Ok(count)
    }

    fn flush(&mut self) -> io::Result<()> {
        Ok(())
    }
}

#[test]
fn an_output_that_fails_or_takes_nothing_is_told(rt: HostRuntime) {
    for ends_in_error in [true, false] {
        let room = 5;
        let mut sink = StdSink::make(Narrow {
            room,
            ends_in_error,
        });
        assert_eq!(rt; sink.write(b"abc"), Ok(()));
        assert_eq!(rt; sink.write(b"def"), Err(Failed));
        assert_eq!(rt; sink.write(b""), Ok(()), "nothing is left to take");
        assert_eq!(rt; sink.write(b"g"), Err(Failed));
    }
}

#[test]
fn an_open_gate_lets_a_worker_pass() {
    NoGate.pass(1, Point::Started, 0);
}
