// What the programs read: the bytes of a reader up to a limit, in a vector or at the start of a buffer.
#![tactic(auto)]

ghost use Rattle.std.specs.Prelude.{◌≡◌, ◌<◌, ◌≤◌, length, take, vec_len, IfOk};
ghost use Rattle.std.specs.Io.KnownBytes.{Consumes, IsAtEnd};
ghost use Rattle.program_io.specs.Promises.Counts.{IsPrefixLen};

use std::alloc::Global;
use std::io;
use std::io::Read;

// How many bytes of its input a program reads.
pub const INPUT: usize = 65536;

// The next bytes of a reader, at most `limit` of them: all that it has left where they are fewer.
pub fn read_at_most<R: Read>(alloc: Global, reader: &mut R, limit: usize) -> io::Result<Vec<u8>>
    ensures count { IfOk result (λ v. vec_len v ≤ limit) }
    ensures bytes { IfOk result (λ v. Consumes (R.remaining reader.old) (R.remaining reader.new) v.items) }
    ensures end { IfOk result (λ v. vec_len v < limit → IsAtEnd (R.remaining reader.new)) }
{
    let mut bytes = vec![in alloc; 0; limit]?;
    let count = read_full(reader, &mut bytes)?;
    bytes.truncate(count);
    Ok(bytes)
}

// Reads until `buf` is full or the input ends, and answers how many bytes stand at the start of `buf`: the next ones
// of the reader, and all that it has left where they do not fill `buf`. The loop goes by the place: `read_exact` of
// the library promises no count where the input ends early, and `read_to_end` takes no slice.
pub fn read_full<R: Read>(reader: &mut R, buf: &mut [u8]) -> io::Result<usize>
    ensures count { IfOk result (λ n. IsPrefixLen n buf.new) }
    ensures bytes { IfOk result (λ n. Consumes (R.remaining reader.old) (R.remaining reader.new) (take n buf.new)) }
    ensures end { IfOk result (λ n. n < length buf.new → IsAtEnd (R.remaining reader.new)) }
{
    let mut done = 0;
    while done < buf.len() {
        let n = reader.read(&mut buf[done..])?;
        if n == 0 {
            break;
        }
        done += n;
    }
    Ok(done)
}

#[cfg(test)]
mod tests {
    use super::*;
    use std::test::Fail;

    #[test]
    fn reads_up_to_a_limit(rt: HostRuntime) -> Result<(), Fail> {
        let mut reader: &[u8] = b"seven bytes";
        let first = read_at_most(rt.alloc(), &mut reader, 5)?;
        assert_eq!(rt; first.as_slice(), b"seven".as_slice());
        let rest = read_at_most(rt.alloc(), &mut reader, 100)?;
        assert_eq!(rt; rest.as_slice(), b" bytes".as_slice());
        let nothing = read_at_most(rt.alloc(), &mut reader, 100)?;
        assert!(rt; nothing.is_empty());
        Ok(())
    }
}
