// The input of the cases: decimal numbers, which every other byte only separates. A list is its length, a count, and that many values, which stand
// first in the list, before zeros. No case has a list that is longer than its buffer.
ghost use Rattle.std.specs.Prelude.{◌≤◌, IfOk, length};

use planner::Town;
use std::io::{self, Read};

// the most bytes up to the end of a number
const GAP: usize = 10000;

// ten times what is below this is still a number
const TENTH: usize = 1844674407370955162;

// the longest lists of scores, of weights, of bytes, and of loads or limits
pub const SCORES: usize = 65;

pub const WEIGHTS: usize = 401;

pub const BYTES: usize = 26000;

pub const LOADS: usize = 401;

// The next byte of the input as a digit; none where it is another byte, and past the end.
fn digit(reader: &mut impl Read) -> io::Result<Option<u8>> {
    let mut byte = [0u8; 1];
    streams::read_full(reader, &mut byte)?;
    let value = byte[0].wrapping_sub(b'0');
    Ok(if value <= 9 { Some(value) } else { None })
}

// The next number, and 0 where none is left. Every number of 64 bits can be read, and no case has a greater one.
pub fn number(reader: &mut impl Read) -> io::Result<usize> {
    let mut value = None;
    for _ in 0..GAP {
        match (digit(reader)?, value) {
            (Some(digit), _) => {
                value = Some((value.unwrap_or(0) % TENTH * 10).wrapping_add(usize::from(digit)));
            }
            (None, Some(value)) => return Ok(value),
            (None, None) => {}
        }
    }
    Ok(value.unwrap_or(0))
}

// What a list is read as: its entries are numbers modulo what is above the greatest one, which holds every entry of a case.
pub trait Entry: Copy {
    fn of(number: usize) -> Self;
}

impl Entry for u8 {
    fn of(number: usize) -> Self {
        (number % 256) as u8
    }
}

impl Entry for u16 {
    fn of(number: usize) -> Self {
        (number % 65536) as u16
    }
}

impl Entry for u32 {
    fn of(number: usize) -> Self {
        (number % 4294967296) as u32
    }
}

// The next number as an entry.
pub fn value<T: Entry>(reader: &mut impl Read) -> io::Result<T> {
    Ok(T::of(number(reader)?))
}

// A number modulo one more than the most, which no length of a case is above.
fn within(number: usize, most: usize) -> usize
    ensures { result ≤ most }
{
    if number <= most {
        return number;
    }
    number % (most + 1)
}

// The next list, in a buffer of zeros.
pub fn list<'a, T: Entry>(reader: &mut impl Read, buffer: &'a mut [T]) -> io::Result<&'a mut [T]>
    ensures { IfOk result (λ x. length x.now ≤ length buffer.old) }
{
    let len = within(number(reader)?, buffer.len());
    let count = within(number(reader)?, buffer.len());
    for place in buffer[..count].iter_mut() {
        *place = value(reader)?;
    }
    Ok(&mut buffer[..len])
}

// A list of one value over and over. A longer one than fits is never looked at: then the streets or sites are too many.
fn same<T: Copy>(each: T, len: usize, buffer: &mut [T]) -> &mut [T]
    ensures { length result.now ≤ length buffer.old }
{
    for place in buffer.iter_mut() {
        *place = each;
    }
    let len = if len <= buffer.len() { len } else { 0 };
    &mut buffer[..len]
}

// The weights of n streets: the next list, or where the case has none 1 for each street.
pub fn weights_of<'a>(
    reader: &mut impl Read,
    weighed: bool,
    n: usize,
    buffer: &'a mut [u8],
) -> io::Result<&'a mut [u8]>
    ensures { IfOk result (λ x. length x.now ≤ length buffer.old) }
{
    if weighed {
        return list(reader, buffer);
    }
    Ok(same(1, n, buffer))
}

// A list of loads or limits: the next list, or where the case has none one number over and over.
pub fn loads_of<'a>(
    reader: &mut impl Read,
    loaded: bool,
    each: u32,
    len: usize,
    buffer: &'a mut [u32],
) -> io::Result<&'a mut [u32]>
    ensures { IfOk result (λ x. length x.now ≤ length buffer.old) }
{
    if loaded {
        return list(reader, buffer);
    }
    Ok(same(each, len, buffer))
}

// The buffers of a case's survey.
#[derive(Drop)]
pub struct Survey {
    scores: [u16; SCORES],
    weights: [u8; WEIGHTS],
    rows: [u8; BYTES],
}

impl Survey {
    // No survey yet.
    pub fn empty() -> Self {
        Survey {
            scores: [0; SCORES],
            weights: [0; WEIGHTS],
            rows: [0; BYTES],
        }
    }

    // The next survey, of n streets and m sites: the scores; in a case with weights the weights; the rows.
    pub fn read(
        &mut self,
        reader: &mut impl Read,
        n: usize,
        m: usize,
        weighed: bool,
    ) -> io::Result<Town<'_>> {
        let Survey {
            scores,
            weights,
            rows,
        } = self;
        Ok(Town {
            n,
            m,
            scores: list(reader, scores)?,
            weights: weights_of(reader, weighed, n, weights)?,
            rows: list(reader, rows)?,
        })
    }
}
