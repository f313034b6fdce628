// Reads what a program is given into memory that is lent: a stream, or a file by its name, to its end or until the memory is full.
// Promised: the bytes that were read stand at the memory's start, as many as are counted, in the order in which the reader had them; fewer
// than the memory holds only where the reader has no more; the memory keeps its length. A read that fails ends with its error. What a
// system's file or stream holds, and when a read of it fails, no contract can say.
#![tactic(auto)]

ghost use Rattle.std.specs.Prelude.{◌≡◌, ℕ, ◌<◌, ◌≤◌, IfOk, OnErr, length, take};
ghost use Rattle.std.specs.Io.{ReadsAtMost};
ghost use Rattle.std.specs.Io.KnownBytes.{Consumes, IsAtEnd};

use std::io::Read;
use std::rt::Files;
use std::{fs, io};

// Reads until the memory is full or the input ends, and says how many bytes it put at the memory's start. After an error the memory's
// start holds what was read before it.
pub fn read_full<R: Read>(reader: &mut R, buf: &mut [u8]) -> io::Result<usize>
    ensures bound { ReadsAtMost result buf.new }
    ensures len { length buf.new ≡ length buf.old }
    ensures bytes { IfOk result (λ n. Consumes (R.remaining reader.old) (R.remaining reader.new) (take n buf.new)) }
    ensures end { IfOk result (λ n. n < length buf.old → IsAtEnd (R.remaining reader.new)) }
    ensures err { OnErr result ((n : ℕ) × (n ≤ length buf.new) × Consumes (R.remaining reader.old) (R.remaining reader.new) (take n buf.new)) }
{
    let mut done = 0;
    // Kept: a `while`. A read gives as many bytes as it likes.
    while done < buf.len() {
        let n = reader.read(&mut buf[done..])?;
        if n == 0 {
            break;
        }
        done += n;
    }
    Ok(done)
}

// Reads the file as `read_full` does: none of it where it cannot be opened.
pub fn load(files: &impl Files, path: &str, buf: &mut [u8]) -> io::Result<usize>
    ensures bound { ReadsAtMost result buf.new }
    ensures len { length buf.new ≡ length buf.old }
{
    match fs::open(files, path) {
        Ok(mut file) => read_full(&mut file, buf),
        Err(_) => Ok(0),
    }
}

#[cfg(test)]
mod tests {
    use super::*;
    use std::test::Fail;

    // Gives one byte a read, 1, 2 and so on up to `last`, and then fails, or is at its end.
    #[derive(Drop)]
    struct Bytewise {
        given: u8,
        last: u8,
        fails: bool,
    }

    impl Read for Bytewise {
        fn read(&mut self, buf: &mut [u8]) -> io::Result<usize> {
            if self.given < self.last && buf.len() > 0 {
                self.given += 1;
                buf[0] = self.given;
                return Ok(1);
            }
            if self.fails {
                return Err(io::Error::from(io::ErrorKind::Other));
            }
            Ok(0)
        }
    }

    fn up_to(last: u8, fails: bool) -> Bytewise {
        Bytewise {
            given: 0,
            last,
            fails,
        }
    }

    #[test]
    fn reads_to_the_end_or_until_full(rt: HostRuntime) -> Result<(), Fail> {
        let mut buf = [9u8; 4];
        assert_eq!(rt; read_full(&mut up_to(3, false), &mut buf)?, 3);
        assert_eq!(rt; buf, [1, 2, 3, 9]);
        let mut long = up_to(6, true);
        assert_eq!(rt; read_full(&mut long, &mut buf)?, 4);
        assert_eq!(rt; buf, [1, 2, 3, 4]);
        assert_eq!(rt; long.given, 4);
        assert_eq!(rt; read_full(&mut long, &mut [])?, 0);
        Ok(())
    }

    #[test]
    fn a_failed_read_is_an_error(rt: HostRuntime) {
        let mut buf = [9u8; 4];
        assert!(rt; read_full(&mut up_to(2, true), &mut buf).is_err());
        assert_eq!(rt; buf, [1, 2, 9, 9]);
    }

    #[test]
    fn a_file_that_is_not_there_is_empty(rt: HostRuntime) -> Result<(), Fail> {
        let mut buf = [9u8; 4];
        assert_eq!(rt; load(&rt, "no such file", &mut buf)?, 0);
        assert_eq!(rt; buf, [9, 9, 9, 9]);
        Ok(())
    }
}
