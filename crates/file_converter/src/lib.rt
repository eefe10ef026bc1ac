// A survey file in the form that is wanted. The file has been checked: its bytes are taken over as they are, but for the first mark and the record HW.
#![tactic(auto)]

ghost use Rattle.std.specs.Prelude.{◌≡◌, ◌+◌, ◌*◌, ◌≤◌, length};
ghost use Rattle.counting.specs.Bounds.{most_sites};
ghost use Rattle.counting.specs.Buffers.{laid};
ghost use Rattle.call_answers.specs.Answers.{number};
ghost use Rattle.survey_file.specs.Filed.{form_refusal};
ghost use Rattle.survey_file.specs.Decode.{town_in};
ghost use Rattle.survey_file.specs.FileBuffers.{converted, file_converted};
ghost use Rattle.file_converter.specs.Pieces.{pieced};

use byte_writer::write_list;
use call_answers::Refusal;
use file_writer::records::{town_mark, write_weights, write_word};
use survey::Survey;
use survey_file::taken::TakenFile;
use survey_file::{Sizes, weights_size};

// 25: the weights of a file, where it is wanted in the old form. An old file has none that it could lose.
pub fn try_form<'a>(taken: TakenFile<'a>, wanted: bool) -> Result<(), Refusal>
    ensures { number result ≡ form_refusal wanted (town_in taken.entry.file.now).weights }
{
    let Sizes { n, m, new_form, .. } = taken.sizes;
    if !new_form {
        return Ok(());
    }
    let from = 11 + 2 * m;
    file_writer::try_form(wanted, &taken.file[from..from + n])
}

// The length of the file in the form that is wanted.
pub fn converted_length<'a>(taken: TakenFile<'a>, wanted: bool) -> usize
    ensures { result ≡ length (converted wanted taken.entry.file.now) }
{
    let Sizes { n, new_form, .. } = taken.sizes;
    taken.file.len() - weights_size(n, new_form) + weights_size(n, wanted)
}

// The pieces of a file one behind the other: the mark of the form that is wanted, what stands up to the end of the scores, the weights, and what stands
// from the streets on.
fn put_together(file: &[u8], m: usize, streets: usize, weights: &[u8], wanted: bool, out: &mut [u8])
    requires m_le_most_sites { (m ≤ most_sites) × (9 + 2 * m ≤ length file.now) × (streets ≤ length file.now) }
    requires streets_in_bounds { length (pieced wanted file.now m weights.now streets) ≤ length out.old }
    ensures { out.new ≡ laid out.old 0 (pieced wanted file.now m weights.now streets) }
{
    let behind_mark = write_word(town_mark(wanted), out, 0);
    let behind_scores = write_list(&file[2..9 + 2 * m], out, behind_mark);
    let behind_weights = write_weights(wanted, weights, out, behind_scores);
    write_list(&file[streets..], out, behind_weights);
}

// The file in the form that is wanted. No byte behind it changes.
pub fn convert<'a>(taken: TakenFile<'a>, wanted: bool, out: &mut [u8])
    requires { length (converted wanted taken.file.now) ≤ length out.old }
    ensures { out.new ≡ file_converted wanted taken.entry.file.now out.old }
{
    let Sizes { n, m, new_form, .. } = taken.sizes;
    let streets = 9 + 2 * m + weights_size(n, new_form);
    if new_form {
        put_together(
            taken.file,
            m,
            streets,
            &taken.file[11 + 2 * m..streets],
            wanted,
            out,
        );
        return;
    }
    let ones = [1u8; Survey::STREETS];
    put_together(taken.file, m, streets, &ones[..n], wanted, out);
}
