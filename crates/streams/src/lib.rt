// What every program needs of its streams: a whole input that is read into a buffer, and a number that is printed.
#![tactic(auto)]

ghost use Rattle.std.specs.Prelude.{◌∷◌, [], ◌++◌, ◌<◌, length, take, IfOk, OnOk};
ghost use Rattle.std.specs.Fmt.{decimal};
ghost use Rattle.std.specs.Io.{ReadsAtMost};
ghost use Rattle.std.specs.Io.KnownBytes.{Appends, Consumes, IsAtEnd};

use std::io;
use std::io::{Read, Write};

// Reads until the buffer is full or the input ends, and returns how many bytes it put at the buffer's front. A failed read is returned, and then
// some of the input may have been read.
pub fn read_full<R: Read>(reader: &mut R, buffer: &mut [u8]) -> io::Result<usize>
    ensures bound { ReadsAtMost result buffer.new }
    ensures bytes { IfOk result (λ n. Consumes (R.remaining reader.old) (R.remaining reader.new) (take n buffer.new)) }
    ensures end { IfOk result (λ n. n < length buffer.new → IsAtEnd (R.remaining reader.new)) }
{
    let mut done = 0;
    for _ in 0..buffer.len() {
        let n = reader.read(&mut buffer[done..])?;
        if n == 0 {
            break;
        }
        done += n;
    }
    Ok(done)
}

// Prints a number, with no sign and no leading zeros. A failed write is returned, and then some of the digits may have been written.
pub fn print_decimal<W: Write>(writer: &mut W, x: u64) -> io::Result<()>
    ensures { OnOk result (Appends (W.contents writer.old) (W.contents writer.new) (decimal x)) }
{
    write!(writer, "{x}")
}

// Prints a word, with the blank behind it if there is to be one, and a number.
pub fn print_number<W: Write>(writer: &mut W, word: &[u8], x: u64) -> io::Result<()>
    ensures { OnOk result (Appends (W.contents writer.old) (W.contents writer.new) (word.now ++ decimal x)) }
{
    writer.write_all(word)?;
    print_decimal(writer, x)
}

// The same, and the end of the line.
pub fn print_line<W: Write>(writer: &mut W, word: &[u8], x: u64) -> io::Result<()>
    ensures { OnOk result (Appends (W.contents writer.old) (W.contents writer.new) ((word.now ++ decimal x) ++ (10 ∷ []))) }
{
    print_number(writer, word, x)?;
    writer.write_all(b"\n")
}

#[cfg(test)]
mod tests {
    use super::*;

    // A reader that gives its input in parts, with a buffer that is longer than the input, and with one that is shorter.
    #[test]
    fn reads_in_parts(rt: HostRuntime) -> io::Result<()> {
        for (len, want) in [(6, 5), (4, 4), (0, 0)] {
            let first: &[u8] = b"abc";
            let second: &[u8] = b"de";
            let mut reader = first.chain(second);
            let mut buffer = [b'.'; 6];
            assert_eq!(rt; read_full(&mut reader, &mut buffer[..len])?, want);
            assert_eq!(rt; &buffer[..want], &b"abcde"[..want]);
        }
        Ok(())
    }

    #[test]
    fn prints_numbers(rt: HostRuntime) -> io::Result<()> {
        let mut text = Vec::new(rt.alloc());
        for x in [0, 7, 10, 18446744073709551615] {
            print_decimal(&mut text, x)?;
            text.write_all(b" ")?;
        }
        let want: &[u8] = b"0 7 10 18446744073709551615 ";
        assert_eq!(rt; text.as_slice(), want);
        Ok(())
    }

    #[test]
    fn prints_lines(rt: HostRuntime) -> io::Result<()> {
        let mut text = Vec::new(rt.alloc());
        print_number(&mut text, b"towns ", 3000)?;
        print_line(&mut text, b", of these ", 0)?;
        let want: &[u8] = b"towns 3000, of these 0\n";
        assert_eq!(rt; text.as_slice(), want);
        Ok(())
    }
}
