// The verifier's call.
ghost use Rattle.std.specs.Prelude.{◌≡◌};
ghost use Rattle.capi.specs.Codes.{code_of};
ghost use Rattle.bare_cases.specs.Answers.{verify_answer};

use crate::output;
use capi::bare_level;
use capi::sizes::CBareSizes;
use capi::types::CAnswer;
use cases::lists::nth_list;
use std::io::Stdout;

// Call 4: A, the whole and the constant-term functions, the rows, p, psi, omega, b'', alpha, delta, the challenges, the opening.
pub fn run_verify(stdout: Stdout, sizes: CBareSizes, lists: &[i32]) -> CAnswer
    ensures { result ≡ code_of (verify_answer sizes lists.now) }
{
    let answer = bare_level::lizkarg_bare_verify(
        sizes,
        nth_list(lists, 0),
        nth_list(lists, 1),
        nth_list(lists, 2),
        nth_list(lists, 3),
        nth_list(lists, 4),
        nth_list(lists, 5),
        nth_list(lists, 6),
        nth_list(lists, 7),
        nth_list(lists, 8),
        nth_list(lists, 9),
        nth_list(lists, 10),
        nth_list(lists, 11),
    );
    output::print_answer(stdout, answer);
    answer
}
