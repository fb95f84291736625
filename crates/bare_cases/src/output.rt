// Answers on standard output.
ghost use Rattle.std.specs.Prelude.{◌≡◌};

use capi::types::CAnswer;
use cases::printing;
use std::io::Stdout;

// The answer's kind and number; the number is what it answers.
pub fn print_answer(stdout: Stdout, answer: CAnswer) -> u64
    ensures { result ≡ answer.number }
{
    printing::print_answer(stdout, answer.kind, answer.number)
}
