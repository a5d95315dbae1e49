//! The top call.
ghost use Rattle.std.specs.Prelude.{◌≡◌, ◌⊎◌, ◌<◌, length, None, true, map, string_bytes, IfSome, OnErr, OnOk, IsErrOf, IsOk};
ghost use Rattle.page_access.specs.Files.{max_input};
ghost use Rattle.page_access.specs.Outside.{GainsPrefix, HasCauseOf, KeepsSink, Rose};
ghost use Rattle.command_line.specs.Command.{command_of};
ghost use Rattle.salvage_core.specs.Outcome.{turn_of};
ghost use Rattle.salvage_cli.specs.Answers.{status_of};
ghost use Rattle.salvage_cli.specs.Run.{HasNumbers, text_of};
ghost use Rattle.salvage_cli.specs.Recovery.{HasFewReads, IsBarred, IsRecoverableBy, IsRecovered, IsTooMuch, IsWholeBy, StopsAtLines, StopsAtOutput, StopsAtTexts};
ghost use Rattle.salvage_cli.specs.Tried.{IsTrialAsked, IsTrialStatus, IsTried, StopsAtTrial};
ghost use Rattle.salvage_cli.specs.Outcome.{Answered, ForListing, GivesCommand, HasEnd, HasNoPages, IsAttached, IsEarlyStatus, IsListed, IsNoCommand, IsOwn, IsStatusOf, IsUtf16, KeepsOutput, KeepsReport, KeepsScript, LeavesOutput, LeavesReport, LeavesScript, Says, StaysUnfinished};

use crate::faults::Fault;
use crate::lines::put_fault;
use crate::listings::list;
use crate::recoveries::recover;
use crate::trials::try_rows;
use command_line::{Request, read_words};
use page_access::{Sink, Source};
use std::alloc::Global;

/// Does what the words ask for, and gives the status of docs/TEXTS.md, "Statuses". A listing goes to
/// `report`; a recovery makes a new database in `out` and a new script in `script`, and its report goes to
/// `report`; the two lines of a trial go to `report`; the line of a refusal goes to `errors`.
pub fn run<S: Source, O: Sink, T: Sink, R: Sink, E: Sink>(
    alloc: Global,
    words: &[String],
    src: &mut S,
    out: &mut O,
    script: &mut T,
    report: &mut R,
    errors: &mut E,
) -> u8
    // the words are no command
    ensures usage { result ≡ 2 → command_of (map string_bytes words.now) ≡ None }
    ensures no_command { command_of (map string_bytes words.now) ≡ None → (result ≡ 2) ⊎
        (result ≡ 11) }

    // done
    ensures name { result ≡ 0 → IsAttached (command_of (map string_bytes words.now))
        (S.attached src.new) }
    ensures finished { result ≡ 0 → R.finished report.new ≡ true }
    ensures listing { result ≡ 0 → IfSome (S.bytes src.old) (λ all.
        ForListing (command_of (map string_bytes words.now)) all
        (λ wanted. IsListed wanted (R.bytes report.old) (R.bytes report.new))) }
    ensures recovered { result ≡ 0 → IsRecovered (command_of (map string_bytes words.now))
        (S.bytes src.old) (record {
          out = turn_of O.bytes O.created O.finished O.faults out.old out.new;
          script = turn_of T.bytes T.created T.finished T.faults script.old script.new;
          report = turn_of R.bytes R.created R.finished R.faults report.old report.new;
        }) }

    // a listing is refused: only by its cause
    ensures status { IfSome (S.bytes src.old) (λ all.
        ForListing (command_of (map string_bytes words.now)) all (λ wanted. IsStatusOf wanted result)) }
    ensures complete { IfSome (S.bytes src.old)
        (λ all. ForListing (command_of (map string_bytes words.now)) all (λ wanted. IsOk wanted
        → (Rose (S.faults src.old) (S.faults src.new) → ⊥) →
        (Rose (R.faults report.old) (R.faults report.new) → ⊥)
        → (result ≡ 0) ⊎ (result ≡ 11))) }
    ensures no_pages { IfSome (S.bytes src.old) (λ all.
        ForListing (command_of (map string_bytes words.now)) all (λ wanted. result ≡ 4 → HasNoPages wanted)) }
    ensures utf16 { IfSome (S.bytes src.old) (λ all.
        ForListing (command_of (map string_bytes words.now)) all (λ wanted. result ≡ 12 → IsUtf16 wanted)) }

    // a recovery is not done: only by its cause
    ensures barred { IsEarlyStatus result → IsBarred (command_of (map string_bytes words.now))
        (S.bytes src.old) result }
    ensures too_much { result ≡ 6 → IsTooMuch (command_of (map string_bytes words.now)) (S.bytes src.old) }
    ensures output_cut { result ≡ 7 → StopsAtOutput (command_of (map string_bytes words.now))
        (S.bytes src.old) (record {
          out = turn_of O.bytes O.created O.finished O.faults out.old out.new;
          script = turn_of T.bytes T.created T.finished T.faults script.old script.new;
          report = turn_of R.bytes R.created R.finished R.faults report.old report.new;
        }) }
    ensures script_cut { result ≡ 8 → StopsAtTexts (command_of (map string_bytes words.now))
        (S.bytes src.old) (record {
          out = turn_of O.bytes O.created O.finished O.faults out.old out.new;
          script = turn_of T.bytes T.created T.finished T.faults script.old script.new;
          report = turn_of R.bytes R.created R.finished R.faults report.old report.new;
        }) }
    ensures report_cut { result ≡ 9 → StopsAtLines (command_of (map string_bytes words.now))
        (S.bytes src.old) (record {
          out = turn_of O.bytes O.created O.finished O.faults out.old out.new;
          script = turn_of T.bytes T.created T.finished T.faults script.old script.new;
          report = turn_of R.bytes R.created R.finished R.faults report.old report.new;
        }) }
    ensures recoverable { IfSome (S.bytes src.old) (λ all.
        IsRecoverableBy (command_of (map string_bytes words.now)) all
        → (Rose (S.faults src.old) (S.faults src.new) → ⊥)
        → (Rose (O.faults out.old) (O.faults out.new) → ⊥)
        → (Rose (T.faults script.old) (T.faults script.new) → ⊥)
        → (Rose (R.faults report.old) (R.faults report.new) → ⊥)
        → (result ≡ 0) ⊎ (result ≡ 11)) }
    ensures well_formed { IfSome (S.bytes src.old) (λ all.
        IsWholeBy (command_of (map string_bytes words.now)) all
        → (Rose (S.faults src.old) (S.faults src.new) → ⊥)
        → (Rose (O.faults out.old) (O.faults out.new) → ⊥)
        → (Rose (T.faults script.old) (T.faults script.new) → ⊥)
        → (Rose (R.faults report.old) (R.faults report.new) → ⊥)
        → (result ≡ 0) ⊎ (result ≡ 11)) }

    // a trial: both lines, or a front of them
    ensures tried { result ≡ 0 → IsTried (command_of (map string_bytes words.now))
        (turn_of R.bytes R.created R.finished R.faults report.old report.new) }
    ensures trial_cut { result ≡ 9 → StopsAtTrial (command_of (map string_bytes words.now))
        (turn_of R.bytes R.created R.finished R.faults report.old report.new) }
    ensures trial_status { IsTrialAsked (command_of (map string_bytes words.now))
        → IsTrialStatus result }
    ensures trial_source { IsTrialAsked (command_of (map string_bytes words.now))
        → src.new ≡ src.old }

    // faults of the outside, and what is said
    ensures too_large { IfSome (S.bytes src.old) (λ all. result ≡ 5 → max_input < length all) }
    ensures input_fault { result ≡ 3 → Rose (S.faults src.old) (S.faults src.new) }
    ensures output_fault { result ≡ 7 → Rose (O.faults out.old) (O.faults out.new) }
    ensures script_fault { result ≡ 8 → Rose (T.faults script.old) (T.faults script.new) }
    ensures report_fault { result ≡ 9 → Rose (R.faults report.old) (R.faults report.new) }
    ensures no_input_fault { (result ≡ 3) ⊎ (S.faults src.new ≡ S.faults src.old) }
    ensures no_output_fault { (result ≡ 7) ⊎ (O.faults out.new ≡ O.faults out.old) }
    ensures no_script_fault { (result ≡ 8) ⊎ (T.faults script.new ≡ T.faults script.old) }
    ensures no_report_fault { (result ≡ 9) ⊎ (R.faults report.new ≡ R.faults report.old) }
    ensures answered { Answered (command_of (map string_bytes words.now)) (S.bytes src.old)
        (record {
          out = turn_of O.bytes O.created O.finished O.faults out.old out.new;
          script = turn_of T.bytes T.created T.finished T.faults script.old script.new;
          report = turn_of R.bytes R.created R.finished R.faults report.old report.new;
        })
        (E.bytes errors.old) (E.bytes errors.new) (E.faults errors.old)
        (E.faults errors.new) result }

    // what stays
    ensures source_kept { result ≡ 2 → src.new ≡ src.old }
    ensures report_kept { KeepsReport (command_of (map string_bytes words.now)) result
        → report.new ≡ report.old }
    ensures report_front { IfSome (S.bytes src.old) (λ all.
        ForListing (command_of (map string_bytes words.now)) all
        (λ wanted. GainsPrefix (R.bytes report.old) (R.bytes report.new) (text_of wanted))) }
    ensures report_name { R.created report.new ≡ R.created report.old }
    ensures unfinished { (result ≡ 0) ⊎
        StaysUnfinished (R.finished report.old) (R.finished report.new) }
    ensures out_kept { KeepsOutput (command_of (map string_bytes words.now)) result → out.new ≡ out.old }
    ensures script_kept { KeepsScript (command_of (map string_bytes words.now)) result
        → script.new ≡ script.old }
    ensures errors_kept { result ≡ 0 → errors.new ≡ errors.old }
    ensures errors_open { KeepsSink E.created E.finished E.faults errors.old errors.new }
    ensures reads { HasFewReads (command_of (map string_bytes words.now)) (S.bytes src.old)
        (S.reads src.old) (S.reads src.new) }
{
    let answer = answer(alloc, words, src, out, script, report);
    tell(errors, &answer);
    status(&answer)
}

// Does what the words ask for.
fn answer<S: Source, O: Sink, T: Sink, R: Sink>(
    alloc: Global,
    words: &[String],
    src: &mut S,
    out: &mut O,
    script: &mut T,
    report: &mut R,
) -> Result<(), Fault>
    ensures usage { IsErrOf result Fault.Usage → command_of (map string_bytes words.now) ≡ None }
    ensures no_command { command_of (map string_bytes words.now) ≡ None → IsNoCommand result }
    ensures told { IfSome (S.bytes src.old)
        (λ all. GivesCommand (command_of (map string_bytes words.now)) all (R.bytes report.old)
        (R.bytes report.new) result) }
    ensures ended { HasEnd (command_of (map string_bytes words.now)) (S.bytes src.old)
        (record {
          out = turn_of O.bytes O.created O.finished O.faults out.old out.new;
          script = turn_of T.bytes T.created T.finished T.faults script.old script.new;
          report = turn_of R.bytes R.created R.finished R.faults report.old report.new;
        }) result }
    ensures name { OnOk result (IsAttached (command_of (map string_bytes words.now))
        (S.attached src.new)) }
    ensures finished { OnOk result (R.finished report.new ≡ true) }
    ensures unread { IsErrOf result Fault.Usage → src.new ≡ src.old }
    ensures trial_source { IsTrialAsked (command_of (map string_bytes words.now))
        → src.new ≡ src.old }
    ensures numbers { HasNumbers result }
    ensures source { HasCauseOf Fault.InputFault (S.faults src.old) (S.faults src.new) result }
    ensures output { HasCauseOf Fault.OutputFault (O.faults out.old) (O.faults out.new) result }
    ensures script { HasCauseOf Fault.ScriptFault (T.faults script.old) (T.faults script.new) result }
    ensures sink { HasCauseOf Fault.ReportFault (R.faults report.old) (R.faults report.new) result }
    ensures own { IsOwn (command_of (map string_bytes words.now)) result }
    ensures out_kept { LeavesOutput (command_of (map string_bytes words.now)) result → out.new ≡ out.old }
    ensures script_kept { LeavesScript (command_of (map string_bytes words.now)) result
        → script.new ≡ script.old }
    ensures report_kept { LeavesReport (command_of (map string_bytes words.now)) result
        → report.new ≡ report.old }
    ensures report_name { R.created report.new ≡ R.created report.old }
    ensures unfinished { OnErr result (StaysUnfinished (R.finished report.old)
        (R.finished report.new)) }
    ensures reads { HasFewReads (command_of (map string_bytes words.now)) (S.bytes src.old)
        (S.reads src.old) (S.reads src.new) }
{
    match read_words(alloc, words)? {
        Request::List(listing, input) => list(alloc, listing, &input, src, report),
        Request::Recover(recovery) => recover(alloc, &recovery, src, out, script, report),
        Request::Try(asked) => try_rows(alloc, &asked, report),
    }
}

// The status of an answer.
fn status(answer: &Result<(), Fault>) -> u8
    ensures { result ≡ status_of answer.now }
{
    match answer {
        Ok(()) => 0,
        Err(Fault::Usage) => 2,
        Err(Fault::InputFault) => 3,
        Err(Fault::NoPageSize | Fault::NoWholePage { .. }) => 4,
        Err(Fault::TooLarge { .. }) => 5,
        Err(Fault::ReportFault) => 9,
        Err(Fault::Memory) => 11,
        Err(Fault::Utf16) => 12,
        Err(Fault::OutputTooLarge { .. }) => 6,
        Err(Fault::OutputFault) => 7,
        Err(Fault::ScriptFault) => 8,
    }
}

// Says what went wrong, if anything; a fault in this changes no status.
fn tell<E: Sink>(errors: &mut E, answer: &Result<(), Fault>)
    ensures said { Says answer.now (E.bytes errors.old) (E.bytes errors.new) (E.faults errors.old)
        (E.faults errors.new) }
    ensures nothing { IsOk answer.now → errors.new ≡ errors.old }
    ensures kept { KeepsSink E.created E.finished E.faults errors.old errors.new }
{
    if let Err(fault) = answer {
        let _ = put_fault(errors, fault);
    }
}
