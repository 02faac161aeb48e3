// Reading of input that has to fit into a buffer.
#![tactic(auto)]

ghost use Rattle.std.specs.Prelude.{◌≡◌, ◌≤◌, ◌<◌, ℕ, length, take, IfOk, OnErr};
ghost use Rattle.std.specs.Io.KnownBytes.{Consumes, IsAtEnd};

use std::io;
use std::io::Read;

// Reads until buf is full or the input ends, and returns how many bytes it put at the start of buf. A read that fails
// ends it: some bytes at the start of buf are then those that were read before.
pub fn read_full<R: Read>(input: &mut R, buf: &mut [u8]) -> io::Result<usize>
    ensures bound { IfOk result (λ n. n ≤ length buf.new) }
    ensures prefix { IfOk result (λ n. n ≡ length (take n buf.new)) }
    ensures bytes { IfOk result (λ n. Consumes (R.remaining input.old) (R.remaining input.new) (take n buf.new)) }
    ensures end { IfOk result (λ n. n < length buf.new → IsAtEnd (R.remaining input.new)) }
    ensures lost { OnErr result ((n : ℕ) × (n ≤ length buf.new) × Consumes (R.remaining input.old) (R.remaining input.new) (take n buf.new)) }
{
    // Kept: a loop over `read`, since std's `read_exact` and `read_to_end` do not say what clause `lost` does after an Err.
    let mut done = 0;
    while done < buf.len() {
        let n = input.read(&mut buf[done..])?;
        if n == 0 {
            break;
        }
        done += n;
    }
    Ok(done)
}

#[cfg(test)]
mod tests {
    use super::*;
    use std::io::ErrorKind;

    // So many bytes, one at a time, and then a failure.
    #[derive(Drop)]
    struct Failing(usize);

    impl Read for Failing {
        fn read(&mut self, buf: &mut [u8]) -> io::Result<usize> {
            if self.0 == 0 || buf.is_empty() {
                return Err(io::Error::from(ErrorKind::BrokenPipe));
            }
            buf[0] = b'x';
            self.0 -= 1;
            Ok(1)
        }
    }

    // The end of a read is not the end of the input.
    #[test]
    fn reads_in_parts(rt: HostRuntime) {
        let mut input = Read::chain(&b"ab"[..], &b"cde"[..]);
        let mut buf = [0u8; 7];
        let n = read_full(&mut input, &mut buf);
        assert_eq!(rt; n.ok(), Some(5));
        assert!(rt; &buf == b"abcde\0\0");
    }

    #[test]
    fn stops_when_full(rt: HostRuntime) {
        let mut input = Failing(3);
        let mut buf = [0u8; 3];
        assert_eq!(rt; read_full(&mut input, &mut buf).ok(), Some(3));
        assert!(rt; &buf == b"xxx");
    }

    #[test]
    fn passes_a_failure_on(rt: HostRuntime) {
        let mut input = Failing(3);
        let mut buf = [0u8; 4];
        let n = read_full(&mut input, &mut buf);
        assert!(rt; n.is_err_and(|e| e.kind() == ErrorKind::BrokenPipe));
    }
}
