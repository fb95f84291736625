// Answers on standard output.
ghost use Rattle.std.specs.Prelude.{◌≡◌};

use capi::types::CAnswer;
use cases::printing;
use std::io::Stdout;

// The answer's kind and number, a blank before them where they are not the first of their line; the number is what it answers.
pub fn print_answer(stdout: Stdout, place: usize, answer: CAnswer) -> u64
    ensures { result ≡ answer.number }
{
    printing::print_gap(stdout, place);
    printing::print_answer(stdout, answer.kind, answer.number)
}
