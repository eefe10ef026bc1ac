// A survey file of a small town put into the form that is wanted: all that it holds is taken out, and written anew.
ghost use Rattle.std.specs.Prelude.{◌≤◌};

use crate::{filling, reading, surveys, writing};

// What a file is refused for before the buffer is looked at: 25 is the weights of an accepted file, where an old one is to be made.
fn check(file: &[u8], wanted: bool) -> Result<(), u8> {
    reading::check(file)?;
    if wanted {
        return Ok(());
    }
    let town = filling::taken(file).town;
    surveys::check_lost(&town.weights[..town.n])
}

// The number of that refusal, and 0 where the file is converted.
// kept: a number with 0 for none, since a plain model gives the papers' numbers, against which the library's own enum is compared
pub fn refusal(file: &[u8], wanted: bool) -> u8 {
    check(file, wanted).err().unwrap_or(0)
}

// The file in the form that is wanted, and its length.
pub fn convert(file: &[u8], wanted: bool, out: &mut [u8]) -> usize
    ensures { result ≤ 111 }
{
    let held = filling::taken(file);
    writing::write(out, held.town, held.kind, wanted)
}
