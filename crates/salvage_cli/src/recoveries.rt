//! A recovery, done: a new database, a new script and a report are made of the input.
ghost use Rattle.std.specs.Prelude.{◌≡◌, ◌≤◌, ◌+◌, Some, true, IfSome, IsErrOf, OnErr, OnOk};
ghost use Rattle.page_access.specs.Outside.{HasCauseOf};
ghost use Rattle.command_line.specs.Command.{recovery_view};
ghost use Rattle.salvage_core.specs.Outcome.{turn_of};
ghost use Rattle.salvage_core.specs.Reads.{most_reads};
ghost use Rattle.salvage_cli.specs.Outcome.{StaysUnfinished};
ghost use Rattle.salvage_cli.specs.Recovery.{EndsAs, IsBeforeOutput, IsBeforeReport, IsBeforeScript, options_of};
ghost use Rattle.salvage_cli.specs.Run.{HasNumbers};

use crate::faults::Fault;
use command_line::Recovery;
use page_access::{MAX_INPUT, Sink, Source};
use record_core::Bytes;
use salvage_core::Options;
use std::alloc::Global;

// The most load of a database that is written.
const MAX_LOAD: u64 = 1 << 32;

// The name of the table of lost cells, where none is given.
const LOST_AND_FOUND: &str = "lost_and_found";

/// Recovers the input: the database, the script and the report are written, in this order.
pub(crate) fn recover<S: Source, O: Sink, T: Sink, R: Sink>(
    alloc: Global,
    recovery: &Recovery<'_>,
    src: &mut S,
    out: &mut O,
    script: &mut T,
    report: &mut R,
) -> Result<(), Fault>
    // what is done, and each refusal by its cause
    ensures ends { EndsAs (recovery_view recovery.now) (S.bytes src.old) (record {
      out = turn_of O.bytes O.created O.finished O.faults out.old out.new;
      script = turn_of T.bytes T.created T.finished T.faults script.old script.new;
      report = turn_of R.bytes R.created R.finished R.faults report.old report.new;
    }) result }
    ensures name { OnOk result (S.attached src.new ≡ Some recovery.now.input.name.now) }
    ensures finished { OnOk result (R.finished report.new ≡ true) }
    ensures command { IsErrOf result Fault.Usage → ⊥ }
    ensures numbers { HasNumbers result }

    // faults of the outside
    ensures source { HasCauseOf Fault.InputFault (S.faults src.old) (S.faults src.new) result }
    ensures output { HasCauseOf Fault.OutputFault (O.faults out.old) (O.faults out.new) result }
    ensures script { HasCauseOf Fault.ScriptFault (T.faults script.old) (T.faults script.new) result }
    ensures sink { HasCauseOf Fault.ReportFault (R.faults report.old) (R.faults report.new) result }

    // what stays
    ensures out_kept { IsBeforeOutput result → out.new ≡ out.old }
    ensures script_kept { IsBeforeScript result → script.new ≡ script.old }
    ensures report_kept { IsBeforeReport result → report.new ≡ report.old }
    ensures report_name { R.created report.new ≡ R.created report.old }
    ensures unfinished { OnErr result (StaysUnfinished (R.finished report.old)
        (R.finished report.new)) }
    ensures reads { IfSome (S.bytes src.old) (λ all. S.reads src.new
        ≤ S.reads src.old + most_reads (options_of (recovery_view recovery.now)) all) }
{
    let lost = recovery.lost.unwrap_or(LOST_AND_FOUND);
    let Ok(lost) = Bytes::copy_of(alloc, lost.as_bytes()) else {
        return Err(Fault::Memory);
    };
    let options = Options {
        page_size: recovery.input.page_size,
        reserved: recovery.input.reserved,
        freelist_corrupt: recovery.freelist_corrupt,
        lost,
        input_limit: MAX_INPUT,
        load_limit: MAX_LOAD,
    };
    let end = salvage_core::recover(
        alloc,
        &options,
        recovery.input.name,
        recovery.output,
        recovery.script,
        src,
        out,
        script,
        report,
    );
    match end {
        Ok(_) => Ok(()),
        Err(fault) => Err(Fault::from(fault)),
    }
}
