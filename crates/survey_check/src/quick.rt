// The quick check of a row: the bits of its sites show that it is sound, with no test of each byte.
ghost use Rattle.std.specs.Prelude.{true, ◌≡◌, ℕ, ◌≤◌, ◌<◌, ltb, length};
ghost use Rattle.counting.specs.Bounds.{most_sites};
ghost use Rattle.counting.specs.Words.{one};
ghost use Rattle.survey_check.specs.Bits.{SiteBits, bits_of, ranked_count};
ghost use Rattle.survey.specs.Refusals.{row_refusal};

// The table of the bits of m sites, made of a table of zeros where it lies: a table that is handed up by value is copied on the stack.
pub fn set_bits(m: usize, bits: &mut [u64; 256])
    requires few_sites { m ≤ most_sites }
    requires zeros { SiteBits 0 bits.old }
    ensures { SiteBits m bits.new }
{
    // kept: the new form is no plainer, since the number makes the bit
    for j in 0..m {
        bits[j + 1] = 1u64 << j;
    }
}

// How many bytes of a row are not 0. The count is a byte so that many bytes are counted at once.
#[tactic(auto, using(crate::proofs::Bits::tallied))]
fn ranked_count(row: &[u8]) -> u8
    requires { length row.now < 256 }
    ensures { result ≡ ranked_count row.now (length row.now) }
{
    let mut count = 0u8;
    for site in row {
        count += u8::from(*site != 0);
    }
    count
}

// The bits of the sites of a list, together.
#[tactic(auto, using(crate::proofs::Bits::joined))]
fn bits_of(list: &[u8], bits: &[u64; 256]) -> u64
    ensures { result ≡ bits_of bits.now list.now (length list.now) }
{
    let mut all = 0u64;
    for site in list {
        all |= bits[usize::from(*site)];
    }
    all
}

// Whether the first bytes of a row, as many as it has sites, have as many different bits. Then the row is sound; else the bits leave it open.
pub fn is_sound(row: &[u8], bits: &[u64; 256]) -> bool
    requires { length row.now < 256 }
    ensures { (m : ℕ) → SiteBits m bits.now → result ≡ true → row_refusal m row.now ≡ 0 }
{
    let count = ranked_count(row);
    let all = bits_of(&row[..usize::from(count)], bits);
    all.count_ones() == u32::from(count)
}
