//! The options of a command.
ghost use Rattle.std.specs.Prelude.{◌≡◌, ◌≤◌, ◌+◌, IfSome, IsTrue, option_map};
ghost use Rattle.page_access.specs.Pages.{is_page_size};
ghost use Rattle.command_line.specs.Command.{file_view, values_of};
ghost use Rattle.command_line.specs.Numbers.{page_size_of, reserved_of};
ghost use Rattle.command_line.specs.Parts.{file_of, has_lost_name, is_for_pages, is_plain, leaves_enough, read_option};

use crate::names::is_lost_name;
use crate::numbers::{page_size_in, reserved_in};
use crate::request::InputFile;

/// The values of the options, as words.
#[derive(Clone, Copy, Debug)]
pub struct OptionWords<'a> {
    pub page_size: Option<&'a str>,
    pub reserved: Option<&'a str>,
    pub freelist_corrupt: bool,
    pub lost: Option<&'a str>,
}

/// An input of this name, where the options for its pages are in order.
#[tactic(auto, unfolding(crate::specs::Parts::file_of))]
pub(crate) fn file_of<'a>(name: &'a str, options: &OptionWords<'_>) -> Option<InputFile<'a>>
    ensures { option_map file_view result ≡ file_of name.entry.now (values_of options.now) }
{
    let page_size = page_size_option(options.page_size)?;
    let reserved = reserved_option(options.reserved)?;
    if !leaves_enough(page_size, reserved) {
        return None;
    }
    Some(InputFile {
        name,
        page_size,
        reserved,
    })
}

/// Whether no option is given that is for a recovery alone.
pub(crate) fn is_for_pages(options: &OptionWords<'_>) -> bool
    ensures { result ≡ is_for_pages (values_of options.now) }
{
    !(options.freelist_corrupt || options.lost.is_some())
}

/// Whether no option is given.
pub(crate) fn is_plain(options: &OptionWords<'_>) -> bool
    ensures { result ≡ is_plain (values_of options.now) }
{
    options.page_size.is_none() && options.reserved.is_none() && is_for_pages(options)
}

/// Whether the name for the lost rows is in order, where it is given.
pub(crate) fn has_lost_name(lost: Option<&str>) -> bool
    ensures { result ≡ has_lost_name (option_map (λ w. w.now) lost.entry) }
{
    match lost {
        Some(name) => is_lost_name(name),
        None => true,
    }
}

// The value of `--page-size`, where the option is given.
fn page_size_option(text: Option<&str>) -> Option<Option<u32>>
    ensures value { result ≡ read_option page_size_of (option_map (λ w. w.now) text.entry) }
    ensures valid { IfSome result (λ o. IfSome o (λ s. IsTrue (is_page_size s))) }
{
    match text {
        Some(text) => Some(Some(page_size_in(text)?)),
        None => Some(None),
    }
}

// The value of `--reserved`, where the option is given.
fn reserved_option(text: Option<&str>) -> Option<Option<u8>>
    ensures { result ≡ read_option reserved_of (option_map (λ w. w.now) text.entry) }
{
    match text {
        Some(text) => Some(Some(reserved_in(text)?)),
        None => Some(None),
    }
}

// Where both are given, at least 480 bytes are left.
fn leaves_enough(page_size: Option<u32>, reserved: Option<u8>) -> bool
    ensures value { result ≡ leaves_enough page_size reserved }
    ensures enough { IsTrue result → IfSome page_size (λ s. IfSome reserved (λ r. r + 480 ≤ s)) }
{
    match (page_size, reserved) {
        (Some(size), Some(reserved)) => size >= 480 + u32::from(reserved),
        _ => true,
    }
}
