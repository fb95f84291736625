// Runs the ring layer, and the product under the name that C uses, on the cases of tools/reference/ring_cases.py: standard input has one
// case a line, standard output gets one line of results for each. The check compares them with the results of the second implementation.
#![tactic(auto)]

mod digits;
mod elements;
mod input;
mod product;
mod runs;
mod tests;
mod values;

fn main(rt: HostRuntime) {
    let mut text = [0u8; 262144];
    runs::run_text(rt.stdin(), rt.stdout(), &mut text);
}
