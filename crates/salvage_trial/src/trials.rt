//! The trial.
ghost use Rattle.std.specs.Prelude.{◌≡◌, ◌≤◌, IfOk, IsErrOf};
ghost use Rattle.page_access.specs.Outside.{HasCauseOf};
ghost use Rattle.trial_file.specs.Trial.{most_rows};
ghost use Rattle.salvage_core.specs.Outcome.{rows_out, turn_of};
ghost use Rattle.salvage_trial.specs.Numbers.{lines_of};
ghost use Rattle.salvage_trial.specs.Trial.{Ends, IsTrialText};

use crate::TrialFault;
use crate::files::{blank, file_of};
use crate::lines::{Counts, Numbers, put_lines};
use crate::salvages::salvage;
use layout_laws::{a_layout_is_whole, the_file_of_a_database_spells_it};
use page_access::Sink;
use salvage_core::Gathered;
use std::alloc::{AllocError, Global};
use trial_file::{make_db, the_database_of_a_trial_is_small, the_text_of_a_trial_has_no_fault};

/// Makes the database of a trial with so many rows, at most 100000, salvages its file whole and with a page
/// of zeros, and puts a line of each. All memory is taken before the first line is put.
pub fn trial<R: Sink>(alloc: Global, rows: u32, report: &mut R) -> Result<(), TrialFault>
    requires { rows ≤ most_rows }
    // both lines are put, or a front of them
    ensures ends { Ends rows
        (turn_of R.bytes R.created R.finished R.faults report.old report.new) result }

    // faults of the outside
    ensures report { HasCauseOf TrialFault.Sink (R.faults report.old) (R.faults report.new) result }

    // what stays
    ensures kept { IsErrOf result TrialFault.Memory → report.new ≡ report.old }
    ensures name { R.created report.new ≡ R.created report.old }
{
    let numbers = numbers_of(alloc, rows)?;
    let Ok(()) = put_lines(&numbers, report) else {
        return Err(TrialFault::Sink);
    };
    let Ok(()) = report.finish() else {
        return Err(TrialFault::Sink);
    };
    Ok(())
}

// What a trial with so many rows tells.
fn numbers_of(alloc: Global, rows: u32) -> Result<Numbers, AllocError>
    requires { rows ≤ most_rows }
    ensures { IfOk result (λ x. IsTrialText rows (lines_of x)) }
{
    let db = make_db(alloc, rows)?;
    the_database_of_a_trial_is_small();
    the_text_of_a_trial_has_no_fault();
    a_layout_is_whole();
    the_file_of_a_database_spells_it(512, &db);
    let mut file = file_of(alloc, rows, &db)?;
    let copy = Vec::from_slice(alloc, file.bytes.as_slice())?;
    let salvaged = salvage(alloc, copy)?;
    let whole = counts_of(&salvaged);
    let hole = 2 + rows % (file.pages - 1);
    blank(file.bytes.as_mut_slice(), hole);
    let damaged = salvage(alloc, file.bytes)?;
    let holed = counts_of(&damaged);
    Ok(Numbers {
        rows,
        pages: file.pages,
        whole,
        hole,
        holed,
    })
}

// How many rows came back, and how many are lost.
fn counts_of(gathered: &Gathered) -> Counts
    ensures rows { result.rows ≡ rows_out gathered.now }
    ensures lost { result.lost ≡ gathered.now.lost }
{
    Counts {
        rows: gathered.rows_out(),
        lost: gathered.lost,
    }
}
