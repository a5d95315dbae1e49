//! What a command asks for.
ghost use Rattle.std.specs.Prelude.{◌≤◌, ◌+◌, IfSome, IsTrue};
ghost use Rattle.std.proofs.Props.{props};
ghost use Rattle.page_access.specs.Pages.{is_page_size};
ghost use Rattle.command_line.specs.Names.{is_lost_name};

/// What is listed.
#[derive(Clone, Copy, Debug, PartialEq, Eq)]
pub enum Listing {
    /// Every value.
    Dbdata,
    /// Every page number that a page names.
    Dbptr,
    /// The rows of the schema.
    Schema,
}

/// An input file, and how it is cut into pages.
#[derive(Clone, Copy, Debug)]
pub struct InputFile<'a> {
    /// Its name.
    pub name: &'a str,
    /// Bytes of a page, a power of two from 512 to 65536, where `--page-size` gives it.
    pub page_size: Option<u32>,
    /// Reserved bytes at the end of each page, where `--reserved` gives it. Where both are given, 480 bytes
    /// are left.
    pub reserved: Option<u8>,
    ghost size_is: { IfSome page_size (λ s. IsTrue (is_page_size s)) } by { Prim.hlevel props },
    ghost enough: { IfSome page_size (λ s. IfSome reserved (λ r. r + 480 ≤ s)) } by { Prim.hlevel props },
}

/// A recovery: the database in an input goes to new files.
#[derive(Clone, Copy, Debug)]
pub struct Recovery<'a> {
    /// The file that is recovered.
    pub input: InputFile<'a>,
    /// The name of the new database.
    pub output: &'a str,
    /// The name of the new script.
    pub script: &'a str,
    /// Free pages are recovered like any other page.
    pub freelist_corrupt: bool,
    /// The name of the table of lost rows, where `--lost` gives it: not empty, and not beginning with
    /// `sqlite_` in any case of its letters.
    pub lost: Option<&'a str>,
    ghost lost_is: { IfSome lost (λ name. IsTrue (is_lost_name name.now)) } by { Prim.hlevel props },
}

/// A trial: a database of so many rows is made and recovered.
#[derive(Clone, Copy, Debug)]
pub struct Trial {
    /// Rows of the database, at most 100000.
    pub rows: u32,
    ghost few: { rows ≤ 100000 },
}

/// A command.
#[derive(Clone, Copy, Debug)]
pub enum Request<'a> {
    /// An input is listed.
    List(Listing, InputFile<'a>),
    /// An input is recovered.
    Recover(Recovery<'a>),
    /// There is a trial.
    Try(Trial),
}
