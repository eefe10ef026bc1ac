// A reader carries the lent file together with the count already read. One is made at a file's start, and each record that is read moves it on. Its
// functions are thin: the work is left to those that take the file and the count as they are.
ghost use Rattle.std.specs.Prelude.{◌≡◌, ◌+◌, ◌*◌, ◌≤◌, length, drop, IfOk};
ghost use Rattle.call_answers.specs.Answers.{number};
ghost use Rattle.survey_file.specs.Decode.{weights_record, weights_size};
ghost use Rattle.survey_file.specs.Sizes.{sizes_in};
ghost use Rattle.file_reader.specs.declared.records.Due.TheVariants as due;
ghost use Rattle.file_reader.specs.Answers.{Reads, record_refusal, fields_of};
ghost use Rattle.file_reader.specs.Left.{left};

use crate::records;
use crate::records::{Due, Record};
use call_answers::Refusal;
use survey_file::{Sizes, weights_size};

// The lent file, and how many of its bytes are read.
#[derive(Clone, Copy)]
pub struct Reader<'a> {
    pub file: &'a [u8],
    pub count: usize,
}

impl<'a> Reader<'a> {
    // A reader that has read nothing yet.
    pub fn new(file: &'a [u8]) -> Self
        ensures begins { (result.file ≡ file.entry) × (result.count ≡ 0) }
        ensures all_left { (result.count ≤ length result.file.now) × (left result ≡ file.now) }
    {
        Self { file, count: 0 }
    }

    // The reader past so many bytes more, which are still within the file.
    pub fn past(self, size: usize) -> Self
        requires { self.count + size ≤ length self.file.now }
        ensures moved { (result.file ≡ self.entry.file) × (result.count ≡ self.entry.count + size) }
        ensures rest { (result.count ≤ length result.file.now) × (left result ≡ drop size (left self.entry)) }
    {
        Self {
            file: self.file,
            count: self.count + size,
        }
    }

    // The record that is due where the reader stands.
    pub fn next(self, due: Due) -> Result<Record, Refusal>
        requires { self.count ≤ length self.file.now }
        ensures { Reads result (record_refusal due (left self.entry)) (fields_of due (left self.entry)) }
    {
        records::record_at(self.file, self.count, due)
    }

    // The town, and the reader past it.
    pub fn town(self) -> Result<(Sizes, Self), Refusal>
        requires { self.count ≤ length self.file.now }
        ensures number { number result ≡ record_refusal due.Town (left self.entry) }
        ensures sizes { IfOk result (λ (sizes, r). sizes ≡ sizes_in (left self.entry)) }
        ensures past { IfOk result (λ (sizes, r). (r.count ≤ length r.file.now) × (left r ≡ drop 7 (left self.entry))) }
    {
        let Record::Town(sizes) = self.next(Due::Town)? else {
            return Err(Refusal::Mark);
        };
        Ok((sizes, self.past(7)))
    }

    // The reader past the scores of m places.
    pub fn scores(self, m: usize) -> Result<Self, Refusal>
        requires { self.count ≤ length self.file.now }
        ensures number { number result ≡ record_refusal (due.Scores m) (left self.entry) }
        ensures past { IfOk result (λ r. (r.count ≤ length r.file.now) × (left r ≡ drop (2 + 2 * m) (left self.entry))) }
    {
        let Record::Scores = self.next(Due::Scores { m })? else {
            return Err(Refusal::Mark);
        };
        Ok(self.past(2 + 2 * m))
    }

    // The reader past the weights of n streets, which only a new file has.
    pub fn weights(self, n: usize, new_form: bool) -> Result<Self, Refusal>
        requires { self.count ≤ length self.file.now }
        ensures number { number result ≡ weights_record new_form n (left self.entry) }
        ensures past { IfOk result (λ r. (r.count ≤ length r.file.now) × (left r ≡ drop (weights_size new_form n) (left self.entry))) }
    {
        if !new_form {
            return Ok(self);
        }
        let Record::Weights = self.next(Due::Weights { n })? else {
            return Err(Refusal::Mark);
        };
        Ok(self.past(2 + n))
    }
}
