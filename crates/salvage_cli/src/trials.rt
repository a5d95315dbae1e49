//! A trial, done.
ghost use Rattle.std.specs.Prelude.{◌≡◌, true, IsErrOf, OnErr, OnOk};
ghost use Rattle.page_access.specs.Outside.{HasCauseOf};
ghost use Rattle.salvage_core.specs.Outcome.{turn_of};
ghost use Rattle.salvage_cli.specs.Outcome.{StaysUnfinished};
ghost use Rattle.salvage_cli.specs.Tried.{EndsTrial, IsOfTrial};

use crate::faults::Fault;
use command_line::Trial;
use page_access::Sink;
use salvage_trial::trial;
use std::alloc::Global;

/// Puts the two lines of the trial.
pub(crate) fn try_rows<R: Sink>(alloc: Global, asked: &Trial, report: &mut R) -> Result<(), Fault>
    ensures ends { EndsTrial asked.now.rows
        (turn_of R.bytes R.created R.finished R.faults report.old report.new) result }
    ensures finished { OnOk result (R.finished report.new ≡ true) }
    ensures own { IsOfTrial result }
    ensures sink { HasCauseOf Fault.ReportFault (R.faults report.old) (R.faults report.new) result }

    // what stays
    ensures report_kept { IsErrOf result Fault.Memory → report.new ≡ report.old }
    ensures report_name { R.created report.new ≡ R.created report.old }
    ensures unfinished { OnErr result (StaysUnfinished (R.finished report.old)
        (R.finished report.new)) }
{
    match trial(alloc, asked.rows, report) {
        Ok(()) => Ok(()),
        Err(fault) => Err(Fault::from(fault)),
    }
}
