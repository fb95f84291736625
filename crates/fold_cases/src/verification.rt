// The verifier's call.
ghost use Rattle.std.specs.Prelude.{◌≡◌};
ghost use Rattle.capi.specs.Codes.{code_of};
ghost use Rattle.fold_cases.specs.Answers.{verify_answer};

use crate::output;
use capi::sizes::CSizes;
use capi::types::CAnswer;
use cases::lists::nth_list;
use std::io::Stdout;

// Call 6: A, B, C, D, the whole and the constant-term functions, u1, the rows, p, psi, omega, b'', alpha, delta, u2, the challenges, the
// opening.
pub fn run_verify(stdout: Stdout, sizes: CSizes, lists: &[i32]) -> CAnswer
    ensures { result ≡ code_of (verify_answer sizes lists.now) }
{
    let answer = capi::lizkarg_verify(
        sizes,
        nth_list(lists, 0),
        nth_list(lists, 1),
        nth_list(lists, 2),
        nth_list(lists, 3),
        nth_list(lists, 4),
        nth_list(lists, 5),
        nth_list(lists, 6),
        nth_list(lists, 7),
        nth_list(lists, 8),
        nth_list(lists, 9),
        nth_list(lists, 10),
        nth_list(lists, 11),
        nth_list(lists, 12),
        nth_list(lists, 13),
        nth_list(lists, 14),
        nth_list(lists, 15),
        nth_list(lists, 16),
    );
    output::print_answer(stdout, answer);
    answer
}
