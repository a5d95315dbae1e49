//! Reading the words.
ghost use Rattle.std.specs.Prelude.{◌≡◌, ◌≢◌, ◌↔◌, None, Some, IfOk, IsErrOf, map, option_map, string_bytes};
ghost use Rattle.clap.specs.Words.{app_of, found_of, rows_of, kind_of};
ghost use Rattle.command_line.specs.Command.{app, asked_in, command_of, recovery_view, values_of, view, words_app};
ghost use Rattle.command_line.specs.Parts.{asked_of, is_given, list_of, listing_of, recovery_of, trial_of};

use crate::numbers::rows_in;
use crate::options::{OptionWords, file_of, has_lost_name, is_for_pages, is_plain};
use crate::request::{Listing, Recovery, Request, Trial};
use clap::error::ErrorKind;
use clap::{Arg, ArgAction, ArgMatches, Command, Error};
use std::alloc::{AllocError, Global};

/// Why words are not read.
#[derive(Clone, Copy, Debug, PartialEq, Eq)]
pub enum WordsFault {
    /// They are no command.
    Usage,
    /// Memory ran out.
    Memory,
}

/// The words of a command line behind the program's name, read as a command.
pub fn read_words<'a>(alloc: Global, words: &'a [String]) -> Result<Request<'a>, WordsFault>
    ensures found { IfOk result (λ r. command_of (map string_bytes words.entry.now) ≡ Some
        (view r)) }
    ensures usage { IsErrOf result WordsFault.Usage → command_of
        (map string_bytes words.entry.now) ≡ None }
{
    let Ok(command) = command_line(alloc) else {
        return Err(WordsFault::Memory);
    };
    match command.try_get_matches_from(words) {
        Ok(matches) => asked_in(&matches).ok_or(WordsFault::Usage),
        Err(fault) => Err(fault_of(&fault)),
    }
}

// Want of memory, or a fault of the words.
fn fault_of(fault: &Error) -> WordsFault
    ensures { (result ≡ WordsFault.Usage) ↔ (kind_of fault.now ≢ ErrorKind.OutOfMemory) }
{
    if fault.kind() == ErrorKind::OutOfMemory {
        WordsFault::Memory
    } else {
        WordsFault::Usage
    }
}

// The command line, for clap.
#[tactic(auto, unfolding(crate::specs::Command::app))]
fn command_line<'a>(alloc: Global) -> Result<Command<'a>, AllocError>
    ensures { IfOk result (λ c. app_of c ≡ app) }
{
    let page_size = Arg::new(alloc, "page-size").long("page-size");
    let reserved = Arg::new(alloc, "reserved").long("reserved");
    let freelist = Arg::new(alloc, "freelist-corrupt")
        .long("freelist-corrupt")
        .action(ArgAction::SetTrue);
    let lost = Arg::new(alloc, "lost").long("lost");
    words_line(alloc)?
        .arg(page_size)?
        .arg(reserved)?
        .arg(freelist)?
        .arg(lost)
}

// The words of the command line, for clap: a mode, and any number of further words.
fn words_line<'a>(alloc: Global) -> Result<Command<'a>, AllocError>
    ensures { IfOk result (λ c. app_of c ≡ words_app) }
{
    let mode = Arg::new(alloc, "MODE").required(true);
    let word = Arg::new(alloc, "WORD").num_args(0..);
    Command::new(alloc, "db_salvage")
        .no_binary_name(true)
        .disable_help_flag(true)
        .disable_version_flag(true)
        .arg(mode)?
        .arg(word)
}

// What the matches ask for.
#[tactic(auto, unfolding(crate::specs::Command::asked_in))]
fn asked_in<'a>(matches: &ArgMatches<'a>) -> Option<Request<'a>>
    ensures { option_map view result ≡ asked_in (rows_of (found_of matches.now)) }
{
    let page_size = matches.get_str("page-size");
    let reserved = matches.get_str("reserved");
    let flag = matches.get_str("freelist-corrupt");
    let lost = matches.get_str("lost");
    let mode = matches.get_str("MODE");
    let words = matches.get_strs("WORD");
    let options = OptionWords {
        page_size,
        reserved,
        freelist_corrupt: is_given(flag),
        lost,
    };
    asked_of(mode, words, &options)
}

// Whether a flag is given.
fn is_given(value: Option<&str>) -> bool
    ensures { result ≡ is_given (option_map (λ w. w.now) value.entry) }
{
    match value {
        Some(word) => word == "true",
        None => false,
    }
}

// What a mode, further words and the options ask for.
#[tactic(auto, unfolding(crate::specs::Parts::asked_of))]
fn asked_of<'a>(
    mode: Option<&str>,
    words: Option<&[&'a str]>,
    options: &OptionWords<'a>,
) -> Option<Request<'a>>
    ensures { option_map view result ≡ asked_of (option_map (λ w. w.now) mode.entry)
        (option_map (λ s. map (λ w. w.now) s.now) words.entry) (values_of options.now) }
{
    let mode = mode?;
    if mode == "recover" {
        return Some(Request::Recover(recovery_of(words, options)?));
    }
    if mode == "trial" {
        return trial_of(words, options);
    }
    list_of(listing_in(mode)?, words, options)
}

// A trial of so many rows.
#[tactic(auto, unfolding(crate::specs::Parts::trial_of))]
fn trial_of<'a>(words: Option<&[&'a str]>, options: &OptionWords<'a>) -> Option<Request<'a>>
    ensures { option_map view result ≡ trial_of
        (option_map (λ s. map (λ w. w.now) s.now) words.entry) (values_of options.now) }
{
    if !is_plain(options) {
        return None;
    }
    let Some([text]) = words else {
        return None;
    };
    let rows = rows_in(text)?;
    Some(Request::Try(Trial { rows }))
}

// A listing of one input.
#[tactic(auto, unfolding(crate::specs::Parts::list_of))]
fn list_of<'a>(
    listing: Listing,
    words: Option<&[&'a str]>,
    options: &OptionWords<'a>,
) -> Option<Request<'a>>
    ensures { option_map view result ≡ list_of listing
        (option_map (λ s. map (λ w. w.now) s.now) words.entry) (values_of options.now) }
{
    if !is_for_pages(options) {
        return None;
    }
    let Some([input]) = words else {
        return None;
    };
    Some(Request::List(listing, file_of(input, options)?))
}

// A recovery of an input to two new files.
#[tactic(auto, unfolding(crate::specs::Parts::recovery_of))]
fn recovery_of<'a>(words: Option<&[&'a str]>, options: &OptionWords<'a>) -> Option<Recovery<'a>>
    ensures { option_map recovery_view result ≡ recovery_of
        (option_map (λ s. map (λ w. w.now) s.now) words.entry) (values_of options.now) }
{
    if !has_lost_name(options.lost) {
        return None;
    }
    let Some([input, output, script]) = words else {
        return None;
    };
    Some(Recovery {
        input: file_of(input, options)?,
        output,
        script,
        freelist_corrupt: options.freelist_corrupt,
        lost: options.lost,
    })
}

#[tactic(auto, unfolding(crate::specs::Parts::listing_of))]
fn listing_in(word: &str) -> Option<Listing>
    ensures { result ≡ listing_of word.now }
{
    match word {
        "dbdata" => Some(Listing::Dbdata),
        "dbptr" => Some(Listing::Dbptr),
        "schema" => Some(Listing::Schema),
        _ => None,
    }
}
