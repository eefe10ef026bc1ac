// What the program prints of a town.
ghost use Rattle.drawn_towns.specs.Small.{Small};

use drawn_towns::Town;
use std::io::{self, Write};
use streams::print_number;

// A line of a word and the numbers of a list.
pub fn list_line<T: Copy + Into<u64>>(
    out: &mut impl Write,
    word: &[u8],
    list: &[T],
) -> io::Result<()> {
    out.write_all(word)?;
    for x in list {
        print_number(out, b" ", (*x).into())?;
    }
    out.write_all(b"\n")
}

// A town and its list.
pub fn town_lines(out: &mut impl Write, town: Town) -> io::Result<()>
    requires { Small town }
{
    list_line(out, b"scores", &town.scores[..town.m])?;
    list_line(out, b"weights", &town.weights[..town.weighed])?;
    list_line(out, b"rows", &town.rows[..town.len])?;
    list_line(out, b"sites", &town.sites[..town.k])
}
