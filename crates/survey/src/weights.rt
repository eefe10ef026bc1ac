// The household weights of the streets: whether they are all the same, and the smallest.
ghost use Rattle.std.specs.Prelude.{true, ◌≡◌, length};
ghost use Rattle.survey.specs.Rows.{Even, least_of};

// Whether all streets have the same weight.
pub fn even(weights: &[u8]) -> bool
    ensures { result ≡ true → Even weights.now }
{
    for weight in weights {
        if *weight != weights[0] {
            return false;
        }
    }
    true
}

// The smallest weight.
pub fn least(weights: &[u8]) -> u8
    ensures { result ≡ least_of (length weights.now) weights.now }
{
    let mut least = crate::Survey::TOP_WEIGHT;
    for weight in weights {
        least = least.min(*weight);
    }
    least
}
