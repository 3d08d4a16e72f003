//! The host's files and output over a runtime that has trouble: a read or a write is interrupted, comes to few bytes,
//! and fails.
ghost use Rattle.std.specs.Prelude.{IsErr};

use lane_gate::{FileFault, Files, HostFiles, HostSink, Sink, SinkFault};
use std::alloc::{Allocator, Global};
use std::cell::Cell;
use std::fmt::Display;
use std::fs::{Metadata, OpenFile, OpenOptions};
use std::io::{Error, ErrorKind, Read, Seek, SeekFrom, Write};
use std::test::Fail;
use std::{io, rt};

fn unsupported<T>() -> io::Result<T>
    ensures { IsErr result }
{
    Err(Error::from(ErrorKind::Unsupported))
}

/// A file that is interrupted once, then gives two bytes, and then fails, or ends.
#[derive(Drop)]
struct Flaky {
    turn: u8,
    ends: bool,
}

impl Read for Flaky {
    fn read(&mut self, block: &mut [u8]) -> io::Result<usize> {
        let turn = self.turn;
        self.turn = turn.saturating_add(1);
        match turn {
            0 => Err(Error::from(ErrorKind::Interrupted)),
            1 if block.len() >= 2 => {
                block[0] = b'a';
                block[1] = b'b';
                Ok(2)
            }
            _ if self.ends => Ok(0),
            _ => Err(Error::from(ErrorKind::BrokenPipe)),
        }
    }
}

impl Write for Flaky {
    fn write(&mut self, _bytes: &[u8]) -> io::Result<usize> {
        unsupported()
    }

    fn flush(&mut self) -> io::Result<()> {
        unsupported()
    }
}

impl Seek for Flaky {
    fn seek(&mut self, _to: SeekFrom) -> io::Result<u64> {
        unsupported()
    }
}

impl OpenFile for Flaky {
    fn metadata(&self) -> io::Result<Metadata> {
        unsupported()
    }

    fn set_len(&self, _size: u64) -> io::Result<()> {
        unsupported()
    }

    fn sync_all(&self) -> io::Result<()> {
        unsupported()
    }

    fn sync_data(&self) -> io::Result<()> {
        unsupported()
    }
}

/// A runtime with the files `ends` and `fails`.
#[derive(Drop)]
struct Troubled {
    alloc: Global,
}

impl Alloc for Troubled {
    type A = Global;

    fn alloc(&self) -> Global {
        self.alloc
    }
}

impl rt::Files for Troubled {
    type File = Flaky;

    type Dir = Flaky;

    fn open_file(&self, _how: &OpenOptions, path: &str) -> io::Result<Flaky> {
        match path {
            "ends" => Ok(Flaky {
                turn: 0,
                ends: true,
            }),
            "fails" => Ok(Flaky {
                turn: 0,
                ends: false,
            }),
            _ => Err(Error::from(ErrorKind::NotFound)),
        }
    }

    fn open_dir(&self, _path: &str) -> io::Result<Flaky> {
        unsupported()
    }

    fn metadata(&self, _path: &str) -> io::Result<Metadata> {
        unsupported()
    }

    fn symlink_metadata(&self, _path: &str) -> io::Result<Metadata> {
        unsupported()
    }

    fn copy(&self, _from: &str, _to: &str) -> io::Result<u64> {
        unsupported()
    }

    fn rename(&self, _from: &str, _to: &str) -> io::Result<()> {
        unsupported()
    }

    fn remove_file(&self, _path: &str) -> io::Result<()> {
        unsupported()
    }

    fn create_dir(&self, _path: &str) -> io::Result<()> {
        unsupported()
    }

    fn remove_dir(&self, _path: &str) -> io::Result<()> {
        unsupported()
    }

    fn remove_dir_all<B: Allocator>(&self, _alloc: B, _path: &str) -> io::Result<()> {
        unsupported()
    }
}

#[test]
fn reads_with_trouble(rt: HostRuntime) -> Result<(), Fail> {
    let troubled = Troubled { alloc: rt.alloc() };
    let mut files = HostFiles::new(&troubled);
    for (name, limit, answer, bytes) in [
        ("ends", 2, Ok(()), ">ab"),
        ("ends", 1, Err(FileFault::TooLong), ">"),
        ("fails", 100, Err(FileFault::Failed), ">"),
        ("other", 100, Err(FileFault::Failed), ">"),
    ] {
        let mut out = vec![in rt.alloc(); b'>']?;
        assert!(rt;
            files.read(name, &mut out, limit) == answer,
            "{name} within {limit}"
        );
        assert!(rt; out.as_slice() == bytes.as_bytes(), "{name} within {limit}");
    }
    Ok(())
}

/// Is interrupted at its first write, takes two bytes at the second, and nothing from then on. It keeps the number of
/// its writes and, as digits to the base 256, the bytes that it took.
#[derive(Drop)]
struct Paper {
    writes: Cell<u8>,
    taken: Cell<u16>,
}

impl Print for Paper {
    fn print<D: Display + Drop>(&self, _value: D) -> io::Result<()> {
        Ok(())
    }

    fn println<D: Display + Drop>(&self, _value: D) -> io::Result<()> {
        Ok(())
    }

    fn write_all(&self, _bytes: &[u8]) -> io::Result<()> {
        Ok(())
    }

    fn write_some(&self, bytes: &[u8]) -> io::Result<usize> {
        let write = self.writes.get();
        self.writes.set(write.saturating_add(1));
        match write {
            0 => Err(Error::from(ErrorKind::Interrupted)),
            1 if bytes.len() >= 2 => {
                self.taken.set(u16::from_be_bytes([bytes[0], bytes[1]]));
                Ok(2)
            }
            _ => Ok(0),
        }
    }
}

#[test]
fn writes_with_trouble(rt: HostRuntime) {
    let paper = Paper {
        writes: Cell::new(0),
        taken: Cell::new(0),
    };
    let mut sink = HostSink::new(&paper);
    assert_eq!(rt; sink.write(b"abc"), Ok(2));
    assert_eq!(rt; paper.taken.get(), 0x6162);
    assert_eq!(rt; sink.write(b"c"), Err(SinkFault::Failed));
    assert_eq!(rt; paper.writes.get(), 3);
}
