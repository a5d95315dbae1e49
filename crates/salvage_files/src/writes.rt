//! Each file is created, written and finished; none of this takes memory.
ghost use Rattle.std.specs.Prelude.{◌≡◌, ◌++◌, drop, map, string_bytes, IfOk};
ghost use Rattle.std.specs.List.{flat_map};
ghost use Rattle.page_access.specs.Outside.{KeepsSink, Writes};
ghost use Rattle.report_text.specs.Lines.{line_text};
ghost use Rattle.report_text.specs.declared.ReportLine.TheVariants as lines;
ghost use Rattle.db_builder.specs.Layout.{last_page, layout};
ghost use Rattle.db_builder.specs.Prepared.{IsPrepared};
ghost use Rattle.db_builder.specs.Trees.{trees_of};
ghost use Rattle.salvage_files.specs.Files.{Finishes, Makes, text_part};

use db_builder::{OutDb, Prepared};
use page_access::{Failed, Sink};
use report_text::{ReportLine, put_line, put_script};
use salvaged_tables::ScriptText;

/// Makes the file of the database that was prepared, under a name, and gives its number of pages. After an
/// error a front of it is there. It takes no memory.
pub fn write_database<O: Sink>(
    prepared: &mut Prepared,
    db: &OutDb,
    name: String,
    out: &mut O,
) -> Result<u32, Failed>
    requires { IsPrepared prepared.old.page_size db.now prepared.old }
    ensures makes { Makes O.bytes O.created O.finished O.faults (string_bytes name)
        (layout prepared.old.page_size db.now) out.old out.new result }
    ensures pages { IfOk result
        (λ n. n ≡ last_page prepared.old.page_size (trees_of db.now.tables.items)) }
{
    out.create(name)?;
    let pages = prepared.write(db, out)?;
    out.finish()?;
    Ok(pages)
}

/// Makes the script of these texts, under a name. After an error a front of it is there. It takes no memory.
pub fn write_script<T: Sink>(
    texts: &[ScriptText],
    name: String,
    script: &mut T,
) -> Result<(), Failed>
    ensures makes { Makes T.bytes T.created T.finished T.faults (string_bytes name)
        (flat_map text_part texts.now) script.old script.new result }
{
    script.create(name)?;
    put_texts(texts, script)?;
    script.finish()
}

// Puts the texts of a script.
fn put_texts<T: Sink>(texts: &[ScriptText], script: &mut T) -> Result<(), Failed>
    ensures writes { Writes (T.bytes script.old) (T.bytes script.new) (T.faults script.old)
        (T.faults script.new) (flat_map text_part texts.now) result }
    ensures kept { KeepsSink T.created T.finished T.faults script.old script.new }
{
    for text in texts {
        put_text(text, script)?;
    }
    Ok(())
}

// Puts a text of a script.
fn put_text<T: Sink>(text: &ScriptText, script: &mut T) -> Result<(), Failed>
    ensures writes { Writes (T.bytes script.old) (T.bytes script.new) (T.faults script.old)
        (T.faults script.new) (text_part text.now) result }
    ensures kept { KeepsSink T.created T.finished T.faults script.old script.new }
{
    put_script(text.text.as_slice(), script)
}

/// Puts the lines of a report, and the line of the `pages` pages of the database that was made, and finishes
/// it. After an error a front of them is there. It takes no memory.
pub fn write_report<R: Sink>(
    report_lines: &[ReportLine],
    pages: u32,
    report: &mut R,
) -> Result<(), Failed>
    ensures finishes { Finishes R.bytes R.created R.finished R.faults
        (flat_map line_text report_lines.now ++ line_text (lines.Written pages))
        report.old report.new result }
{
    put_lines(report_lines, report)?;
    put_pages(pages, report)?;
    report.finish()
}

// Puts the line of the pages of the database.
fn put_pages<R: Sink>(pages: u32, report: &mut R) -> Result<(), Failed>
    ensures writes { Writes (R.bytes report.old) (R.bytes report.new) (R.faults report.old)
        (R.faults report.new) (line_text (lines.Written pages)) result }
    ensures kept { KeepsSink R.created R.finished R.faults report.old report.new }
{
    let line = ReportLine::Written {
        pages: u64::from(pages),
    };
    put_line(&line, report)
}

// Puts lines.
fn put_lines<R: Sink>(report_lines: &[ReportLine], report: &mut R) -> Result<(), Failed>
    ensures writes { Writes (R.bytes report.old) (R.bytes report.new) (R.faults report.old)
        (R.faults report.new) (flat_map line_text report_lines.now) result }
    ensures kept { KeepsSink R.created R.finished R.faults report.old report.new }
{
    for line in report_lines {
        put_line(line, report)?;
    }
    Ok(())
}
