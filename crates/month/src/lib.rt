// The totals of a month by value (02, wish 13): a feed and a merge take the totals and give them back beside their answer. No call asks
// anything of its caller.
#![tactic(auto)]

ghost use Rattle.std.specs.Prelude.{◌≡◌, []};
ghost use Rattle.rules.specs.Month.{totals, fed, merged};
ghost use Rattle.month_feed.specs.Views.{finished};
ghost use Rattle.month.specs.Views.{totals_of, fed_of};

use call_errors::CallError;
use kept_records::Records;

// 26 words in the published order.
#[derive(Clone, Copy)]
pub struct Totals {
    pub words: [u64; 26],
}

// The answer of a feed or a merge, and the totals after it.
#[derive(Clone, Copy)]
pub struct Fed {
    pub answer: Result<(), CallError>,
    pub totals: Totals,
}

impl Totals {
    // The totals of no submissions.
    pub fn zero() -> Totals
        ensures { totals_of result ≡ totals [] }
    {
        let mut words = [0u64; 26];
        month_totals::zero(&mut words);
        Totals { words }
    }

    // Feeds one submission, whose records are the first rows of a table.
    pub fn feed(self, error: u32, units: u32, count: u32, records: &Records) -> Fed
        ensures { fed_of result ≡ fed (totals_of self) (finished error units count records.now) }
    {
        let mut totals = self;
        let answer = month_feed::feed(&mut totals.words, error, units, count, records);
        Fed { answer, totals }
    }

    // Adds the totals of another part of the month.
    pub fn merge(self, other: Totals) -> Fed
        ensures { fed_of result ≡ merged (totals_of self) (totals_of other) }
    {
        let mut totals = self;
        let answer = month_totals::merge(&mut totals.words, &other.words);
        Fed { answer, totals }
    }
}
