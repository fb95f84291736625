// The cases of a text, one a line.
ghost use Rattle.std.specs.Prelude.{◌≡◌, []};
ghost use Rattle.cases.specs.Text.{past_lines, Lines};

use crate::printing::print_line_end;
use crate::reading::read_full;
use crate::text::line_length;
use std::io::{Stdin, Stdout};

// Runs every line of a text and prints a line end after each; the answer is how many there are.
fn run_all<F: FnMut(&[u8])>(stdout: Stdout, text: &[u8], mut run_line: F) -> usize
    requires { F.IsAlwaysCallable run_line }
    ensures { past_lines result text.now ≡ [] }
{
    let mut rest = text;
    let mut count = 0;
    // A while: a line is as long as its bytes say, and no iterator of std's cuts so.
    while !rest.is_empty() {
        let (line, after) = rest.split_at(line_length(rest));
        run_line(line);
        print_line_end(stdout);
        rest = after;
        count += 1;
    }
    count
}

// Reads a text into the buffer and runs its lines; the answer is how many there are.
pub fn run_text<F: FnMut(&[u8])>(
    mut stdin: Stdin,
    stdout: Stdout,
    buffer: &mut [u8],
    run_line: F,
) -> usize
    requires { F.IsAlwaysCallable run_line }
    ensures { Lines buffer.new result }
{
    let length = read_full(&mut stdin, buffer);
    run_all(stdout, &buffer[..length], run_line)
}
