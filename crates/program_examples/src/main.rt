// Runs the worked examples of the night log through the code, and prints what it answers, a line a check.
// Answers are what the code gave. Where that is a case without a number (a bad ring, a bad shape), the number is the rule's.
#![tactic(auto)]

mod fences;
mod guest;
mod lines;
mod rings;
mod submissions;
mod tables;
mod textures;

// The examples, in order. A line that cannot be printed is passed over; the run goes on to its end, and the status is 0 all the same.
fn examples(rt: &impl Print) {
    textures::example_1(rt);
    textures::example_2(rt);
    textures::example_3(rt);
    textures::example_4(rt);
    fences::example_5(rt);
    rings::example_6(rt);
    rings::example_7(rt);
    tables::example_8(rt);
    submissions::example_9(rt);
    submissions::example_10(rt);
}

fn main(rt: HostRuntime) {
    examples(&rt);
}
