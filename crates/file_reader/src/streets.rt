// The street records of a file, one after another.
ghost use Rattle.std.specs.Prelude.{◌≡◌, ◌≤◌, length, drop};
ghost use Rattle.call_answers.specs.Answers.{number};
ghost use Rattle.survey_file.specs.Decode.{streets_and_end};

use crate::records;
use crate::records::{Due, Record};
use call_answers::Refusal;

// The n street records from an index on, and the end behind them. Never inlined: what the streets' records take of the stack, its callers don't keep.
#[inline(never)]
pub fn try_streets(file: &[u8], from: usize, n: usize, m: usize) -> Result<(), Refusal>
    requires { from ≤ length file.now }
    ensures { number result ≡ streets_and_end n m (drop from file.now) }
{
    let mut at = from;
    for i in 0..n {
        let Record::Street { size } = records::record_at(
            file,
            at,
            Due::Street { m, number: i + 1 },
        )?
        else {
            return Err(Refusal::Mark);
        };
        at += 5 + size;
    }
    records::record_at(file, at, Due::End)?;
    Ok(())
}
