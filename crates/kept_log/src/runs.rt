//! Which run has which row.
ghost use Rattle.std.specs.Prelude.{◌≡◌, ◌↔◌, ◌+◌, ℕ, Some, drop};
ghost use Rattle.std.specs.Option.{option_copied};
ghost use Rattle.kept_texts.specs.declared.runs.Run.{Run as RunSeen};
ghost use Rattle.kept_log.specs.Runs.{HasRow, run_after, run_of_row};

use kept_texts::Run;

/// The run of the row that comes after this many rows.
fn run_after(runs: &[Run], count: usize) -> Option<&Run>
    ensures { option_copied result ≡ run_after runs.now count }
{
    let mut left = count;
    for run in runs {
        if left < run.calls {
            return Some(run);
        }
        left -= run.calls;
    }
    None
}

/// The run of row n, if there is one.
fn find_run(runs: &[Run], n: u32) -> Option<&Run>
    ensures { option_copied result ≡ run_of_row runs.now n }
{
    if n == 0 {
        return None;
    }
    run_after(runs, n as usize - 1)
}

/// The run that has row n: rows count from 1 over all runs, and each run has as many rows as it has
/// calls. `None` if there is no row n.
pub fn run_of_row(runs: &[Run], n: u32) -> Option<&Run>
    ensures value { option_copied result ≡ run_of_row runs.now n }
    ensures both { (run : RunSeen) → (option_copied result ≡ Some run) ↔ HasRow runs.now n run }
{
    find_run(runs, n)
}

/// A place among the rows of runs: the first is that of row 1.
#[derive(Clone, Copy, Debug, PartialEq, Eq)]
pub struct RunPlace {
    /// How many runs come before it.
    pub run: usize,
    /// How many rows after these are.
    pub row: usize,
}

impl RunPlace {
    /// The place of row 1.
    pub fn first() -> RunPlace
        ensures { result ≡ record { run = 0; row = 0 } }
    {
        RunPlace { run: 0, row: 0 }
    }
}

/// The run of the row at a place, which becomes the place of the next row. So the runs of all rows,
/// one after another, are found in one pass over the runs.
pub fn next_run<'a>(runs: &'a [Run], place: &mut RunPlace) -> Option<&'a Run>
    ensures run { option_copied result ≡ run_after (drop place.old.run runs.now) place.old.row }
    ensures next { (k : ℕ) → run_after (drop place.new.run runs.now) (place.new.row + k) ≡ run_after (drop place.old.run runs.now) (place.old.row + (k + 1)) }
{
    'runs: while place.run < runs.len() {
        let run = &runs[place.run];
        if place.row < run.calls {
            place.row += 1;
            return Some(run);
        }
        place.row -= run.calls;
        place.run += 1;
    }
    None
}
