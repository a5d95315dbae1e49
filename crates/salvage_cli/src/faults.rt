//! Why the program does not do what was asked.
ghost use Rattle.std.specs.Prelude.{◌≡◌};
ghost use Rattle.salvage_cli.specs.Answers.{of_core, of_input, of_list, of_trial, of_words};

use command_line::WordsFault;
use dbdata_list::ListFault;
use input_pages::InputFault;
use salvage_trial::TrialFault;

/// Why the program does not do what was asked (docs/TEXTS.md, "Statuses").
#[derive(Clone, Copy, Debug, PartialEq, Eq)]
pub enum Fault {
    /// The words are no command.
    Usage,
    /// A call of the source failed.
    InputFault,
    /// The input has over 2^28 bytes.
    TooLarge {
        /// Bytes of the input.
        len: u64,
    },
    /// Neither an option nor the header nor a page tells the page size.
    NoPageSize,
    /// The input is shorter than a page.
    NoWholePage {
        /// Bytes of the input.
        len: u64,
        /// Bytes of a page.
        size: u32,
    },
    /// The header says that texts are in UTF-16, and the mode does not read such a file.
    Utf16,
    /// The load of the database that would be written is over 2^32.
    OutputTooLarge {
        /// The load.
        load: u128,
    },
    /// A call of the sink of the database failed.
    OutputFault,
    /// A call of the sink of the script failed.
    ScriptFault,
    /// A call of the report failed.
    ReportFault,
    /// There was no memory.
    Memory,
}

impl From<WordsFault> for Fault {
    ghost from_gives = { λ fault e. e ≡ of_words fault };

    fn from(fault: WordsFault) -> Self {
        match fault {
            WordsFault::Usage => Fault::Usage,
            WordsFault::Memory => Fault::Memory,
        }
    }
}

impl From<InputFault> for Fault {
    ghost from_gives = { λ fault e. e ≡ of_input fault };

    fn from(fault: InputFault) -> Self {
        match fault {
            InputFault::Source => Fault::InputFault,
            InputFault::TooLarge { len } => Fault::TooLarge { len },
            InputFault::NoPageSize => Fault::NoPageSize,
            InputFault::NoWholePage { len, size } => Fault::NoWholePage { len, size },
            InputFault::Memory => Fault::Memory,
        }
    }
}

impl From<ListFault> for Fault {
    ghost from_gives = { λ fault e. e ≡ of_list fault };

    fn from(fault: ListFault) -> Self {
        match fault {
            ListFault::Source => Fault::InputFault,
            ListFault::Sink => Fault::ReportFault,
            ListFault::Memory => Fault::Memory,
        }
    }
}

impl From<TrialFault> for Fault {
    ghost from_gives = { λ fault e. e ≡ of_trial fault };

    fn from(fault: TrialFault) -> Self {
        match fault {
            TrialFault::Sink => Fault::ReportFault,
            TrialFault::Memory => Fault::Memory,
        }
    }
}

impl From<salvage_core::Fault> for Fault {
    ghost from_gives = { λ fault e. e ≡ of_core fault };

    fn from(fault: salvage_core::Fault) -> Self {
        match fault {
            salvage_core::Fault::InputFault => Fault::InputFault,
            salvage_core::Fault::TooLarge { len } => Fault::TooLarge { len },
            salvage_core::Fault::NoPageSize => Fault::NoPageSize,
            salvage_core::Fault::NoWholePage { len, size } => Fault::NoWholePage { len, size },
            salvage_core::Fault::Utf16 { .. } => Fault::Utf16,
            salvage_core::Fault::OutputTooLarge { load } => Fault::OutputTooLarge { load },
            salvage_core::Fault::OutputFault => Fault::OutputFault,
            salvage_core::Fault::ScriptFault => Fault::ScriptFault,
            salvage_core::Fault::ReportFault => Fault::ReportFault,
            salvage_core::Fault::Memory => Fault::Memory,
        }
    }
}
