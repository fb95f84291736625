// The line that says an answer: "one line of two such fields of 16 columns: kind .. and number".
ghost use Rattle.std.specs.Prelude.{◌≡◌};
ghost use Rattle.fold.specs.Answers.{Answer};
ghost use Rattle.fold.specs.Codes.{coded};
ghost use Rattle.judge.specs.Judging.{verdict_line};

use fields::write::write_laid;
use fold::answers::Code;

pub fn verdict_line(code: Code) -> [u8; 33]
    ensures { (a : Answer) → code ≡ coded a → result ≡ verdict_line a }
{
    let mut line = [32u8; 33];
    write_laid(&mut line, 0, false, code.kind as u64, false);
    write_laid(&mut line, 16, false, code.number, true);
    line
}
