// The month in numbers (02, wish 13), as docs/MONTH.md publishes it: reads finished submissions from standard input, prints a line for each
// that is not counted, then a line for each total, and `bad input` if the input ends inside a submission.
#![tactic(auto)]

mod input;
mod lines;

use crate::input::{Cut, next_submission};
use crate::lines::TotalLines;
use month_feed::feed;
use month_totals::TotalsWords;
use std::io;
use std::io::{BufRead, BufReader};

// Feeds all submissions, and prints the lines of those that are not counted.
fn feed_all(
    rt: &impl Print,
    input: &mut impl BufRead,
    totals: &mut TotalsWords,
) -> Result<(), Cut> {
    for i in 0..u64::MAX {
        let Some(s) = next_submission(input)? else {
            return Ok(());
        };
        if let Err(refusal) = feed(totals, s.error, s.units, s.count, &s.records) {
            let _ = println!(rt; "submission={i} answer={}", refusal.number());
        }
    }
    Ok(())
}

// A line that cannot be printed is passed over; the run goes on to its end, and the status is 0 all the same.
fn report(rt: &impl Print, input: &mut impl BufRead) {
    let mut totals: TotalsWords = [0; 26];
    let is_cut = feed_all(rt, input, &mut totals).is_err();
    let _ = print!(rt; "{}", TotalLines(&totals));
    if is_cut {
        let _ = println!(rt; "bad input");
    }
}

fn main(rt: HostRuntime) -> io::Result<()> {
    let mut input = BufReader::new(rt.alloc(), rt.reader())?;
    report(&rt, &mut input);
    Ok(())
}
