// Runs the next instance, the parts of its witness, and a fold with the fold of its next instance on the cases of
// tools/reference/next_cases.py, by the functions that crate capi exports: standard input has one case a line, standard output gets one
// line for each. The check compares them with the results of the second implementation.
#![tactic(auto)]

mod folds;
mod input;
mod instance;
mod messages;
mod output;
mod part;
mod runs;
mod twice;
mod witness;

fn main(rt: HostRuntime) {
    let mut text = [0u8; 2097152];
    runs::run_text(rt.stdin(), rt.stdout(), &mut text);
}
