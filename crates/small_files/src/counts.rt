// How often each answer of each call came, and how many answers were not the right ones.
use planner::Refusal;
use std::io::{self, Write};
use streams::{print_line, print_number};

// the numbers of refusals are below this
const NUMBERS: usize = 26;

// What a call comes to: acceptance or the number of a refusal, and none where it leaves something wrong.
pub type Outcome = Option<Result<(), u8>>;

// What an answer comes to, where what it leaves is right or not.
pub fn outcome<T: Drop>(answer: Result<T, Refusal>, is_right: bool) -> Outcome {
    if !is_right {
        return None;
    }
    match answer {
        Ok(_) => Some(Ok(())),
        Err(refusal) => Some(Err(refusal.number())),
    }
}

// What a plain program finds: nothing at 0, else the number of a refusal.
pub fn found(number: u8) -> Result<(), u8> {
    if number == 0 { Ok(()) } else { Err(number) }
}

// The right and the wrong answers of one call; the right ones by what they say.
#[derive(Clone, Copy)]
pub struct Answers {
    accepted: u64,
    refused: [u64; NUMBERS],
    different: u64,
}

impl Answers {
    // No answer yet.
    fn none() -> Self {
        Answers {
            accepted: 0,
            refused: [0; NUMBERS],
            different: 0,
        }
    }

    // Counts the outcome of a call, which is to be this one.
    pub fn compare(&mut self, outcome: Outcome, right: Result<(), u8>) {
        if outcome != Some(right) {
            self.different = self.different.saturating_add(1);
            return;
        }
        match right {
            Ok(()) => self.accepted = self.accepted.saturating_add(1),
            Err(number) => {
                if let Some(times) = self.refused.get_mut(usize::from(number)) {
                    *times = times.saturating_add(1);
                }
            }
        }
    }

    // How many answers of a call were compared.
    fn compared(self) -> u64 {
        let mut sum = self.accepted.saturating_add(self.different);
        for times in self.refused {
            sum = sum.saturating_add(times);
        }
        sum
    }

    // The lines of a call, the first of which begins with a word.
    fn lines(self, out: &mut impl Write, word: &[u8]) -> io::Result<()> {
        print_line(out, word, self.compared())?;
        print_line(out, b"accepted: ", self.accepted)?;
        for (number, times) in self.refused.iter().enumerate() {
            if *times != 0 {
                print_number(out, b"refused ", number as u64)?;
                print_line(out, b": ", *times)?;
            }
        }
        Ok(())
    }
}

// The answers of the three calls.
#[derive(Clone, Copy)]
pub struct Counts {
    pub writer: Answers,
    pub reader: Answers,
    pub converter: Answers,
}

impl Counts {
    // No answer yet.
    pub fn none() -> Self {
        Counts {
            writer: Answers::none(),
            reader: Answers::none(),
            converter: Answers::none(),
        }
    }

    // The lines of all calls, and the differences.
    pub fn lines(self, out: &mut impl Write) -> io::Result<()> {
        self.writer.lines(out, b"answers of the writer ")?;
        self.reader.lines(out, b"answers of the reader ")?;
        self.converter.lines(out, b"answers of the converter ")?;
        let differences = self
            .writer
            .different
            .saturating_add(self.reader.different)
            .saturating_add(self.converter.different);
        print_line(out, b"differences ", differences)
    }
}
