//! The roles of words in a text.

ghost use Rattle.std.specs.Prelude.{◌≡◌};
ghost use Rattle.create_grammar.specs.Roles.{role_code};

/// What a word says in a text.
#[derive(Clone, Copy, Debug, PartialEq, Eq)]
pub enum Role {
    /// No other role.
    Other,
    /// The name of the table.
    TableName,
    /// The name of a column.
    ColumnName,
    /// A word of a column's type.
    TypeWord,
    /// The parenthesis behind the words of a type.
    TypeOpen,
    /// The name of a column's collation.
    ColumnCollate,
    /// PRIMARY of a column.
    ColumnPrimary,
    /// UNIQUE of a column.
    ColumnUnique,
    /// PRIMARY of a constraint of the table.
    TablePrimary,
    /// UNIQUE of a constraint of the table.
    TableUnique,
    /// A name in the list of a PRIMARY KEY or UNIQUE.
    KeyName,
    /// DESC of a key, or COLLATE in the list of a key.
    KeyMark,
    /// AUTOINCREMENT.
    Auto,
    /// AS of a generated column.
    Generated,
    /// WITHOUT.
    WithoutRowid,
}

impl Role {
    /// The number by which a grammar knows a role.
    pub fn code(self) -> u8
        ensures { result ≡ role_code self }
    {
        self as u8
    }
}
