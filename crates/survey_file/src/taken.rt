// A survey file that the check has accepted, with what its first record gives: what is filled or converted from it is there.
ghost use Rattle.std.specs.Prelude.{ℕ, ◌<◌};
ghost use Rattle.counting.specs.Lists.{at};
ghost use Rattle.survey_file.specs.Decode.{FileTaken};

use crate::Sizes;

#[derive(Clone, Copy)]
pub struct TakenFile<'a> {
    pub file: &'a [u8],
    pub sizes: Sizes,
    pub ghost taken: { FileTaken file.now sizes.n sizes.m sizes.new_form },
    pub ghost bytes: { (i : ℕ) → at file.now i < 256 },
}
