// The plan program: reads a survey file from standard input and prints the listing of its plan, or the line of the refusal.
#![tactic(auto)]

ghost use Rattle.std.specs.Prelude.{OnOk};
ghost use Rattle.plan.specs.Program.{PrintsFile};

use std::io;
use std::io::{Read, Write};
use survey::Survey;

// one byte more than the longest file has: the bytes behind it change nothing of what is printed
const FILE: usize = Survey::FILE + 1;

// Reads a file, and prints the listing of its plan, or the line of the refusal. A read or a write that fails is returned.
fn run<R: Read, W: Write>(reader: &mut R, out: &mut W) -> io::Result<()>
    ensures { OnOk result (PrintsFile (R.remaining reader.old) (W.contents out.old) (W.contents out.new)) }
{
    let mut file = [0u8; FILE];
    let mut text = [0u8; printing::TEXT];
    let size = streams::read_full(reader, &mut file)?;
    let end = printing::print(&file[..size], &mut text);
    out.write_all(&text[..end])
}

fn main(rt: HostRuntime) -> io::Result<()> {
    run(&mut rt.reader(), &mut io::writer(&rt))
}
