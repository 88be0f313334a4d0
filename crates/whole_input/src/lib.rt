// Standard input, or any other reader, read until a buffer is full.
#![tactic(auto)]

ghost use Rattle.std.specs.Prelude.{◌≡◌, ◌<◌, length, take, OnOk, OnErr, Some};
ghost use Rattle.whole_input.specs.Counts.{IsPrefixLen, bytes_read, cut_short_text};
ghost use Rattle.std.specs.Io.KnownBytes.{Consumes, IsAtEnd};

use std::error::Error;
use std::fmt;
use std::io::Read;

// A read failed, after so many bytes.
#[derive(Clone, Copy, Debug, PartialEq, Eq)]
pub struct CutShort {
    pub after: usize,
}

impl fmt::Display for CutShort {
    ghost output = { λ cut. Some (cut_short_text cut) };

    fn fmt<W: fmt::Write>(&self, f: &mut fmt::Formatter<W>) -> fmt::Result {
        write!(f, "a read failed after {} bytes", self.after)
    }
}

impl Error for CutShort {}

// How many bytes were read, whether or not a read failed after them.
pub fn bytes_read(outcome: Result<usize, CutShort>) -> usize
    ensures { result ≡ bytes_read outcome }
{
    match outcome {
        Ok(n) => n,
        Err(cut) => cut.after,
    }
}

// Reads until buf is full, there is no more, or a read fails; one that a signal interrupts has failed. Ok is how many bytes were read.
pub fn read_full<R: Read>(reader: &mut R, buf: &mut [u8]) -> Result<usize, CutShort>
    ensures in_bounds { IsPrefixLen (bytes_read result) buf.new }
    ensures bytes { Consumes (R.remaining reader.old) (R.remaining reader.new) (take (bytes_read result) buf.new) }
    ensures failure { OnErr result (bytes_read result < length buf.old) }
    ensures end { OnOk result (bytes_read result < length buf.old → IsAtEnd (R.remaining reader.new)) }
{
    let mut done = 0;
    // A turn goes on by as many bytes as a read gave, so no `for` counts them.
    while done < buf.len() {
        match reader.read(&mut buf[done..]) {
            Ok(0) => return Ok(done),
            Ok(n) => done += n,
            Err(_) => return Err(CutShort { after: done }),
        }
    }
    Ok(done)
}

#[cfg(test)]
mod tests {
    use super::{CutShort, bytes_read, read_full};
    use std::io;
    use std::io::Read;

    // Hands out a byte for each read, each one less than the last, and fails after 1.
    #[derive(Drop)]
    struct Falling {
        left: u8,
    }

    impl Read for Falling {
        fn read(&mut self, buf: &mut [u8]) -> io::Result<usize> {
            if buf.is_empty() {
                return Ok(0);
            }
            if self.left == 0 {
                return Err(io::Error::from(io::ErrorKind::Other));
            }
            buf[0] = self.left;
            self.left -= 1;
            Ok(1)
        }
    }

    #[test]
    fn full_ended_or_failed(rt: HostRuntime) {
        let mut buf = [0u8; 4];
        let mut longer: &[u8] = b"abcdef";
        let full = read_full(&mut longer, &mut buf);
        assert_eq!(rt; full, Ok(4));
        assert_eq!(rt; buf, [97, 98, 99, 100]);
        let mut shorter: &[u8] = b"xy";
        let ended = read_full(&mut shorter, &mut buf);
        assert_eq!(rt; ended, Ok(2));
        assert_eq!(rt; buf, [120, 121, 99, 100]);
        let failed = read_full(&mut Falling { left: 3 }, &mut buf);
        assert_eq!(rt; failed, Err(CutShort { after: 3 }));
        assert_eq!(rt; bytes_read(failed), 3);
        assert_eq!(rt; buf, [3, 2, 1, 100]);
        let in_time = read_full(&mut Falling { left: 4 }, &mut buf);
        assert_eq!(rt; in_time, Ok(4));
        assert_eq!(rt; bytes_read(in_time), 4);
    }
}
