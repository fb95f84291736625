// Runs the bare level's calls, under the names that C uses, on the cases of tools/reference/bare_cases.py: standard input has one case a line,
// standard output gets the answer and what the call wrote, one line for each. The check compares them with the results of the second
// implementation.
#![tactic(auto)]

mod input;
mod messages;
mod output;
mod runs;
mod verification;

fn main(rt: HostRuntime) {
    let mut text = [0u8; 1048576];
    runs::run_text(rt.stdin(), rt.stdout(), &mut text);
}
