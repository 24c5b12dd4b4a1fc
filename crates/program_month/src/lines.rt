// The lines of the totals, in the published order.
use month_totals::{LARGEST, READ, TotalsWords, UNITS, WRITTEN};
use std::fmt;

// All totals, a line each.
#[derive(Clone, Copy)]
pub struct TotalLines<'a>(pub &'a TotalsWords);

impl fmt::Display for TotalLines<'_> {
    fn fmt<W: fmt::Write>(&self, f: &mut fmt::Formatter<W>) -> fmt::Result {
        let totals = self.0;
        writeln!(f, "accepted={}", totals[0])?;
        // errors 10 to 30
        for at in 1..UNITS {
            writeln!(f, "refused_{}={}", at + 9, totals[at])?;
        }
        writeln!(f, "units={}", totals[UNITS])?;
        writeln!(f, "bytes_read={}", totals[READ])?;
        writeln!(f, "bytes_written={}", totals[WRITTEN])?;
        writeln!(f, "largest_write={}", totals[LARGEST])
    }
}
