//! The salvage.
ghost use Rattle.std.specs.Prelude.{◌≡◌, ◌≤◌, ◌+◌, ◌^◌, ◌-◌, min, length, sum_by, Some, IfSome, OnOk, string_bytes};
ghost use Rattle.page_access.specs.Outside.{HasCauseOf};
ghost use Rattle.db_builder.specs.Prepared.{IsPrepared};
ghost use Rattle.salvage_core.specs.Plan.{AreOptions};
ghost use Rattle.salvage_core.specs.Reads.{most_reads};
ghost use Rattle.salvage_core.specs.Sound.{IsSound};
ghost use Rattle.salvage_core.specs.Outcome.{Ends, EndsOut, EndsWriting, HasNumbers, IsBefore, IsBeforeReport, IsBeforeScript, turn_of};

use crate::{Fault, Gathered, Options, gather};
use db_builder::{Prepared, prepare};
use layout_laws::the_file_of_a_database_spells_it;
use page_access::{Sink, Source};
use salvage_files::{write_database, write_report, write_script};
use std::alloc::Global;

/// What a salvage did.
#[derive(Clone, Copy, Debug, PartialEq, Eq)]
pub struct Summary {
    /// Pages of the input.
    pub pages_in: u32,
    /// Pages of the database that was written.
    pub pages_out: u32,
    /// Rows of the tables that are built.
    pub rows: u64,
    /// Rows of the table of lost cells.
    pub lost: u64,
}

/// Recovers what the input of this name holds: a database goes to `out`, under the name `output`, the texts
/// of what is not built to `script`, and what was found to `report`, in this order. All memory is taken
/// before `out` is created.
pub fn recover<S: Source, O: Sink, T: Sink, R: Sink>(
    alloc: Global,
    opts: &Options,
    input: &str,
    output: &str,
    script_name: &str,
    src: &mut S,
    out: &mut O,
    script: &mut T,
    report: &mut R,
) -> Result<Summary, Fault>
    requires { AreOptions opts.now }
    // what is done, and each refusal by its cause
    ensures ends { Ends opts.now (S.bytes src.old) (record {
      database = output.now;
      script = script_name.now;
      out_turn = turn_of O.bytes O.created O.finished O.faults out.old out.new;
      script_turn = turn_of T.bytes T.created T.finished T.faults script.old script.new;
      report_turn = turn_of R.bytes R.created R.finished R.faults report.old report.new;
    }) result }
    ensures name { OnOk result (S.attached src.new ≡ Some input.now) }
    ensures numbers { HasNumbers opts.now result }

    // faults of the outside
    ensures source { HasCauseOf Fault.InputFault (S.faults src.old) (S.faults src.new) result }
    ensures output { HasCauseOf Fault.OutputFault (O.faults out.old) (O.faults out.new) result }
    ensures script { HasCauseOf Fault.ScriptFault (T.faults script.old) (T.faults script.new) result }
    ensures report { HasCauseOf Fault.ReportFault (R.faults report.old) (R.faults report.new) result }

    // what stays
    ensures source_bytes { S.bytes src.new ≡ S.bytes src.old }
    ensures reads { IfSome (S.bytes src.old)
        (λ all. S.reads src.new ≤ S.reads src.old + most_reads opts.now all) }
    ensures out_kept { IsBefore result → out.new ≡ out.old }
    ensures script_kept { IsBeforeScript result → script.new ≡ script.old }
    ensures report_kept { IsBeforeReport result → report.new ≡ report.old }
    ensures report_name { R.created report.new ≡ R.created report.old }
{
    let gathered = gather(alloc, opts, input, src)?;
    let limit = opts.load_limit;
    write_out(
        alloc,
        &gathered,
        limit,
        output,
        script_name,
        out,
        script,
        report,
    )
}

// Writes what was gathered, where its load is at most the limit. All memory is taken first.
fn write_out<O: Sink, T: Sink, R: Sink>(
    alloc: Global,
    gathered: &Gathered,
    limit: u64,
    output: &str,
    script_name: &str,
    out: &mut O,
    script: &mut T,
    report: &mut R,
) -> Result<Summary, Fault>
    requires sound { IsSound gathered.now }
    requires limit { limit ≤ 2 ^ 35 }
    ensures ends { EndsOut gathered.now limit (record {
      database = output.now;
      script = script_name.now;
      out_turn = turn_of O.bytes O.created O.finished O.faults out.old out.new;
      script_turn = turn_of T.bytes T.created T.finished T.faults script.old script.new;
      report_turn = turn_of R.bytes R.created R.finished R.faults report.old report.new;
    }) result }
    ensures output { HasCauseOf Fault.OutputFault (O.faults out.old) (O.faults out.new) result }
    ensures script { HasCauseOf Fault.ScriptFault (T.faults script.old) (T.faults script.new) result }
    ensures report { HasCauseOf Fault.ReportFault (R.faults report.old) (R.faults report.new) result }
    ensures out_kept { IsBefore result → out.new ≡ out.old }
    ensures script_kept { IsBeforeScript result → script.new ≡ script.old }
    ensures report_kept { IsBeforeReport result → report.new ≡ report.old }
    ensures report_name { R.created report.new ≡ R.created report.old }
{
    let prepared = prepare(alloc, &gathered.db, gathered.page_size, limit)?;
    the_file_of_a_database_spells_it(gathered.page_size, &gathered.db);
    let output = String::from_str(alloc, output)?;
    let script_name = String::from_str(alloc, script_name)?;
    write_all(gathered, prepared, output, script_name, out, script, report)
}

// Writes the three files, one after another.
fn write_all<O: Sink, T: Sink, R: Sink>(
    gathered: &Gathered,
    prepared: Prepared,
    output: String,
    script_name: String,
    out: &mut O,
    script: &mut T,
    report: &mut R,
) -> Result<Summary, Fault>
    requires size { prepared.page_size ≡ gathered.now.page_size }
    requires prepared { IsPrepared prepared.page_size gathered.now.db prepared }
    ensures ends { EndsWriting gathered.now (record {
      database = string_bytes output;
      script = string_bytes script_name;
      out_turn = turn_of O.bytes O.created O.finished O.faults out.old out.new;
      script_turn = turn_of T.bytes T.created T.finished T.faults script.old script.new;
      report_turn = turn_of R.bytes R.created R.finished R.faults report.old report.new;
    }) result }
    ensures output { HasCauseOf Fault.OutputFault (O.faults out.old) (O.faults out.new) result }
    ensures script { HasCauseOf Fault.ScriptFault (T.faults script.old) (T.faults script.new) result }
    ensures report { HasCauseOf Fault.ReportFault (R.faults report.old) (R.faults report.new) result }
    ensures begun { IsBefore result → ⊥ }
    ensures script_kept { IsBeforeScript result → script.new ≡ script.old }
    ensures report_kept { IsBeforeReport result → report.new ≡ report.old }
    ensures report_name { R.created report.new ≡ R.created report.old }
{
    let mut prepared = prepared;
    let db = &gathered.db;
    let Ok(pages_out) = write_database(&mut prepared, db, output, out) else {
        return Err(Fault::OutputFault);
    };
    let Ok(()) = write_script(&gathered.script, script_name, script) else {
        return Err(Fault::ScriptFault);
    };
    let Ok(()) = write_report(&gathered.lines, pages_out, report) else {
        return Err(Fault::ReportFault);
    };
    Ok(Summary {
        pages_in: gathered.uses.pages(),
        pages_out,
        rows: gathered.rows_out(),
        lost: gathered.lost,
    })
}
