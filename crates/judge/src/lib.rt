// The judge of a sheet: SPECIFICATION 10.
#![tactic(auto)]

ghost use Rattle.std.specs.Prelude.{◌≡◌};
ghost use Rattle.fold.specs.Rows.{check_number};
ghost use Rattle.fold.specs.Answers.{judgement_of};
ghost use Rattle.judge.specs.Judging.{judged_text, verdict_line};
ghost use Rattle.judge.specs.Known.Read.{Into};
ghost use Rattle.judge.specs.Room.{lent_count};

use fold::answers::{Answer, Code, Refusal, Verdict};

// The numbers that a text of 65536 bytes can hold: each takes 16 columns.
const MOST_NUMBERS: usize = 4096;

mod lengths;
pub mod line;
mod lists;
mod numbers;

// Reads a text into a slice for its numbers, and answers to them.
fn judge_into(text: &[u8], numbers: &mut [i32]) -> Answer<Verdict>
    ensures { Into text.now numbers.old (judgement_of check_number result) numbers.new }
{
    let s = sheet::reader::read_sheet(text, numbers)?;
    numbers::judge_sheet_numbers(s.sizes, numbers)
}

// How many numbers are lent for a text: those that its header gives, at most 4096. 65536 bytes do not hold more.
fn lent_count(text: &[u8]) -> usize
    ensures { result ≡ lent_count text.now }
{
    sheet::reader::sheet_numbers(text).min(MOST_NUMBERS)
}

// The answer to a text: "at most 65536 bytes (longer: 12, before all else)". The verifier tests the reader's numbers once more, as it does for
// every caller, and refuses them by row 15 only: `after-reading` (specs/Laws/PassLaws.antt).
pub fn judge_sheet(text: &[u8]) -> Answer<Verdict>
    ensures { judgement_of check_number result ≡ judged_text text.now }
{
    if 65536 < text.len() {
        return Err(Refusal::Layout);
    }
    let mut numbers = [0i32; MOST_NUMBERS];
    let count = lent_count(text);
    judge_into(text, &mut numbers[..count])
}

// The line that says the answer to a text.
pub fn judged_line(text: &[u8]) -> [u8; 33]
    ensures { result ≡ verdict_line (judged_text text.now) }
{
    line::verdict_line(Code::from(judge_sheet(text)))
}
