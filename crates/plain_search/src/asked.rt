// What a plan is refused for in its sizes and its kind, in the order of the numbers.
use drawn_towns::asked::Asked;

// 1: the streets. 2: the sites. 3: the sites to choose.
fn check_sizes(asked: Asked) -> Result<(), u8> {
    if !(1..=400).contains(&asked.n) {
        return Err(1);
    }
    if !(1..=64).contains(&asked.m) {
        return Err(2);
    }
    if !(1..=asked.m).contains(&asked.k) {
        return Err(3);
    }
    Ok(())
}

// 1 to 3; then 4: no kind of plan. 5: a balanced plan of more sites than streets.
pub fn check(asked: Asked) -> Result<(), u8> {
    check_sizes(asked)?;
    if 1 < asked.kind {
        return Err(4);
    }
    if asked.kind == 1 && asked.n < asked.k {
        return Err(5);
    }
    Ok(())
}

// The number of the refusal, and 0 where all of it is right.
// kept: a number with 0 for none, since a plain model gives the papers' numbers, against which the library's own enum is compared
pub fn refusal(asked: Asked) -> u8 {
    check(asked).err().unwrap_or(0)
}
