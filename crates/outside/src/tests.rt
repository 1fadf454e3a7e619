// What no clause says: the words of a failure, what readers and writers that fail midway leave, and names and descriptors of the system itself.
use crate::output::{Outputs, tell_failure, write_all};
use crate::{arguments, descriptors, files, input};
use std::env::FillError;
use std::io;
use std::io::{Read, Write};
use std::rt::Env;
use std::test::Fail;

// Gives two bytes a read, so many times, and then fails.
#[derive(Drop)]
struct Broken(u8);

impl Read for Broken {
    fn read(&mut self, buf: &mut [u8]) -> io::Result<usize> {
        if self.0 == 0 {
            return Err(io::Error::from_raw_os_error(5));
        }
        self.0 -= 1;
        (&b"ab"[..]).read(buf)
    }
}

// Takes two bytes a write, so many times, and then no more.
#[derive(Drop)]
struct Narrow {
    taken: Vec<u8>,
    left: u8,
}

impl Write for Narrow {
    fn write(&mut self, buf: &[u8]) -> io::Result<usize> {
        if self.left == 0 {
            return Err(io::Error::from_raw_os_error(28));
        }
        self.left -= 1;
        let n = buf.len().min(2);
        self.taken.write(&buf[..n])
    }

    fn flush(&mut self) -> io::Result<()> {
        Ok(())
    }
}

// Takes the first piece that is written, whole, and no other.
#[derive(Drop)]
struct First {
    taken: Vec<u8>,
    full: bool,
}

impl Write for First {
    fn write(&mut self, buf: &[u8]) -> io::Result<usize> {
        if self.full {
            return Err(io::Error::from_raw_os_error(28));
        }
        self.full = true;
        self.taken.write(buf)
    }

    fn flush(&mut self) -> io::Result<()> {
        Ok(())
    }
}

// Two words, of which the first is empty.
struct Words;

impl Env for Words {
    fn arg(&self, i: usize, buf: &mut [u8]) -> Result<usize, FillError> {
        match i {
            0 => Ok(0),
            1 if buf.len() < 3 => Err(FillError::TooLong),
            1 => {
                buf[0] = b'a';
                buf[1] = 0xFF;
                buf[2] = b'c';
                Ok(3)
            }
            _ => Err(FillError::NotPresent),
        }
    }

    fn var(&self, _name: &str, _buf: &mut [u8]) -> Result<usize, FillError> {
        Err(FillError::NotPresent)
    }

    fn var_at(&self, _i: usize, _buf: &mut [u8]) -> Result<usize, FillError> {
        Err(FillError::NotPresent)
    }
}

#[test]
fn words_as_bytes(rt: HostRuntime) {
    let mut wide = [0u8; 4];
    let mut narrow = [0u8; 2];
    assert_eq!(rt; arguments::count(&Words), 2);
    assert_eq!(rt;
        arguments::whole(&Words, 1, &mut wide),
        b"a\xFFc".as_slice()
    );
    assert_eq!(rt; arguments::whole(&Words, 1, &mut narrow), b"".as_slice());
    assert_eq!(rt; arguments::whole(&Words, 2, &mut wide), b"".as_slice());
    assert_eq!(rt; arguments::front(&Words, 1, &mut narrow).len(), 2);
    assert_eq!(rt; arguments::front(&Words, 2, &mut narrow), b"".as_slice());
}

#[test]
fn reads_that_fail(rt: HostRuntime) {
    let mut bytes = [0u8; 5];
    let filled = input::fill(&mut Broken(2), &mut bytes);
    assert_eq!(rt; filled.count, 4);
    assert_eq!(rt; filled.failure.and_then(|e| e.raw_os_error()), Some(5));
    let filled = input::fill(&mut Broken(3), &mut bytes);
    assert_eq!(rt; filled.count, 5);
    assert!(rt; filled.failure.is_none());
    assert_eq!(rt; bytes, *b"ababa");
    let filled = input::fill(&mut &b"xyz"[..], &mut bytes);
    assert_eq!(rt; filled.count, 3);
    assert!(rt; filled.failure.is_none());
}

#[test]
fn writes_that_fail(rt: HostRuntime) -> Result<(), Fail> {
    let mut to = Narrow {
        taken: Vec::new(rt.alloc()),
        left: 2,
    };
    let failed = write_all(&mut to, b"abcdef").err();
    assert_eq!(rt; failed.and_then(|e| e.raw_os_error()), Some(28));
    assert_eq!(rt; to.taken.as_slice(), b"abcd".as_slice());
    let mut to = Outputs {
        printout: to,
        messages: Vec::new(rt.alloc()),
    };
    assert!(rt; to.print(b"x").is_err());
    let told = b"lungevati: the output could not be written: No space left on device\n";
    assert_eq!(rt; to.messages.as_slice(), told.as_slice());
    Ok(())
}

// Messages of programs that run side by side do not mix before they say what failed.
#[test]
fn fronts_in_one_piece(rt: HostRuntime) -> Result<(), Fail> {
    let mut to = Outputs {
        printout: Narrow {
            taken: Vec::new(rt.alloc()),
            left: 0,
        },
        messages: First {
            taken: Vec::new(rt.alloc()),
            full: false,
        },
    };
    assert!(rt; to.print(b"x").is_err());
    let front = b"lungevati: the output could not be written";
    assert_eq!(rt; to.messages.taken.as_slice(), front.as_slice());
    Ok(())
}

#[test]
fn complaints(rt: HostRuntime) -> Result<(), Fail> {
    let mut to = Outputs {
        printout: Vec::new(rt.alloc()),
        messages: Vec::new(rt.alloc()),
    };
    to.complain(b"a.capture", io::Error::from_raw_os_error(2))?;
    let line = b"lungevati: a.capture: No such file or directory\n";
    assert_eq!(rt; to.messages.as_slice(), line.as_slice());
    assert!(rt; to.printout.is_empty());
    Ok(())
}

#[test]
fn words_of_failures(rt: HostRuntime) -> Result<(), Fail> {
    for (code, line) in [
        (0, "f: Success\n"),
        (2, "f: No such file or directory\n"),
        (84, "f: Invalid or incomplete multibyte or wide character\n"),
        (9999, "f: Unknown error 9999\n"),
    ] {
        let mut to = Vec::new(rt.alloc());
        tell_failure(&mut to, b"f", io::Error::from_raw_os_error(code))?;
        assert_eq!(rt; to.as_slice(), line.as_bytes());
    }
    let mut to = Vec::new(rt.alloc());
    let ended = io::Error::from(io::ErrorKind::UnexpectedEof);
    tell_failure(&mut to, b"f", ended)?;
    assert_eq!(rt; to.as_slice(), b"f: unexpected end of file\n".as_slice());
    Ok(())
}

// A test has no descriptor but the first three.
#[test]
fn of_the_system(rt: HostRuntime) -> Result<(), Fail> {
    let mut null = files::open(&rt, b"/dev/null", 1)?;
    assert_eq!(rt; input::goes_on(&mut null)?, false);
    let long = [b'x'; 4096];
    for (name, code) in [
        (b"/dev/null/x".as_slice(), 20),
        (b"".as_slice(), 2),
        (long.as_slice(), 36),
        (b"\xFF".as_slice(), 84),
    ] {
        let failed = files::open(&rt, name, 1).err();
        assert_eq!(rt; failed.and_then(|e| e.raw_os_error()), Some(code));
    }
    let failed = descriptors::open_names(&rt).err();
    assert_eq!(rt; failed.and_then(|e| e.raw_os_error()), Some(9));
    assert!(rt; descriptors::report(&rt, b"status 0\n").is_err());
    Ok(())
}
