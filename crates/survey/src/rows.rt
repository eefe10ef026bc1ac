// One street's row: its ranked part, and the place and the score that it gives a site.
ghost use Rattle.std.specs.Prelude.{◌≡◌};
ghost use Rattle.survey.specs.Rows.{ranked_part, place_in, place_of, score_at, score_of, counted_of};

// The ranked part of a row: the leading part of the caller's own slice, up to the first zero. It begins where the row begins, so it is no copy.
pub fn ranked(row: &[u8]) -> &[u8]
    ensures bytes { result.now ≡ ranked_part row.now }
    ensures place { result.ref_ptr ≡ row.entry.ref_ptr }
{
    for (i, site) in row.iter().enumerate() {
        if *site == 0 {
            return &row[..i];
        }
    }
    row
}

// The place of a site in a list, 1 the best; 0 where the list has no such site.
#[tactic(auto, using(counting::proofs::Refusals::scan))]
pub fn place_in(list: &[u8], site: u8) -> usize
    ensures { result ≡ place_in list.now site }
{
    for (i, ranked) in list.iter().enumerate() {
        if *ranked == site {
            return i + 1;
        }
    }
    0
}

// The place that a row gives a site; 0 where it is not ranked.
pub fn place(row: &[u8], site: u8) -> usize
    ensures { result ≡ place_of row.now site }
{
    place_in(ranked(row), site)
}

// The score at a place; no place, and a place past the scores, scores 0.
#[tactic(auto, using(counting::proofs::Refusals::chain))]
pub fn score_at(scores: &[u16], place: usize) -> u16
    ensures { result ≡ score_at scores.now place }
{
    if place == 0 {
        return 0;
    }
    scores.get(place - 1).copied().unwrap_or(0)
}

// The score that a row gives a site: a site that is not ranked scores 0.
pub fn score(scores: &[u16], row: &[u8], site: u8) -> u16
    ensures { result ≡ score_of scores.now row.now site }
{
    score_at(scores, place(row, site))
}

// The counted score that a row gives a site: its score times the street's household weight.
pub fn counted(weight: u8, scores: &[u16], row: &[u8], site: u8) -> u32
    ensures { result ≡ counted_of weight scores.now row.now site }
{
    u32::from(weight) * u32::from(score(scores, row, site))
}
