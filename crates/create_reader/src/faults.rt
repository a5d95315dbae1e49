//! Why a text gives no shape.

use thiserror::Error;

/// Why `read_create` gave no shape: the first of these, in this order, that holds.
#[derive(Clone, Copy, Debug, PartialEq, Eq, Error)]
pub enum CreateFault {
    /// The first three words are CREATE VIRTUAL TABLE.
    #[error("the table is virtual")]
    Virtual,
    /// The words are not in the grammar. Some text of the grammar begins with the first `at` words,
    /// and none with more of them.
    #[error("the text leaves the grammar behind {at} words")]
    Form { at: u32 },
    /// A column is generated.
    #[error("the table has a generated column")]
    Generated,
    /// There are over 1,996 columns, or over 16 constraints that take a number.
    #[error("the table has too many columns or keys")]
    Limit,
    /// The keys are none that this program writes.
    #[error("the table has a key that is not written")]
    Key,
    /// Memory ran out.
    #[error("memory ran out")]
    Memory,
}
