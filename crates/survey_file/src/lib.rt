// The survey file: its bytes, what it holds, and the one size that reader, writer and converter share.
#![tactic(auto)]

ghost use Rattle.std.specs.Prelude.{◌≡◌, ◌≤◌};
ghost use Rattle.counting.specs.Bounds.{most_streets};
ghost use Rattle.survey_file.specs.Decode.{weights_size};

pub mod taken;

// What a survey file's first record gives: the sizes, the kind of plan, and the file's form.
#[derive(Clone, Copy, Debug, PartialEq, Eq)]
pub struct Sizes {
    pub n: usize,
    pub m: usize,
    pub k: usize,
    pub kind: usize,
    pub new_form: bool,
}

// The bytes of the record HW, which only a file of the new form has.
pub fn weights_size(n: usize, new_form: bool) -> usize
    requires { n ≤ most_streets }
    ensures { result ≡ weights_size new_form n }
{
    if new_form {
        return 2 + n;
    }
    0
}
