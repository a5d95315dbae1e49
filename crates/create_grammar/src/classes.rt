//! Classes of words, one of which stands at a place of the grammar.

ghost use Rattle.std.specs.Prelude.{◌≡◌};
ghost use Rattle.create_grammar.specs.Classes.{any_bare, class_of, codes_of, name};
ghost use Rattle.create_grammar.specs.Sorts.{code};
ghost use Rattle.create_grammar.specs.declared.classes.Class.TheVariants as class;
ghost use Rattle.word_grammar.specs.Form.{has};

use crate::sorts::{Sort, code};

/// The words that may stand at a place.
#[derive(Clone, Copy, Debug, PartialEq, Eq)]
pub enum Class {
    /// One sort alone.
    One(Sort),
    /// A name.
    Name,
    /// A name with which a column can begin.
    ColumnName,
    /// Any bare word.
    AnyBare,
    /// A bare word that a type can have.
    TypeWord,
    /// A number, a name or a blob.
    Value,
    /// A sign.
    Sign,
    /// DELETE, UPDATE or INSERT.
    Event,
    /// CASCADE or RESTRICT.
    Effect,
    /// NULL or DEFAULT.
    NullOrDefault,
    /// DEFERRED or IMMEDIATE.
    Deferral,
    /// STORED or VIRTUAL.
    Storage,
    /// ASC or DESC.
    OrderWord,
    /// The first word of an action of a reference.
    ActionWord,
    /// The first word of an option of the table.
    OptionWord,
    /// The first word of an unnamed constraint of the table.
    BodyWord,
    /// The first word of a constraint's time.
    DeferWord,
    /// The first word of a constraint of a column.
    ConstraintWord,
}

/// Whether a sort is of a class.
pub fn is_of(sort: Sort, class: Class) -> bool
    ensures { result ≡ has (class_of class) (code sort) }
{
    match class {
        Class::One(other) => is_among(sort, &[other]),
        Class::Name => is_name(sort),
        Class::ColumnName => is_column_name(sort),
        Class::AnyBare => is_bare(sort),
        Class::TypeWord => is_type_word(sort),
        Class::Value => is_value(sort),
        Class::Sign => is_among(sort, &[Sort::Plus, Sort::Minus]),
        Class::Event => is_among(sort, &[Sort::Delete, Sort::Update, Sort::Insert]),
        Class::Effect => is_among(sort, &[Sort::Cascade, Sort::Restrict]),
        Class::NullOrDefault => is_among(sort, &[Sort::Null, Sort::Default]),
        Class::Deferral => is_among(sort, &[Sort::Deferred, Sort::Immediate]),
        Class::Storage => is_among(sort, &[Sort::Stored, Sort::Virtual]),
        Class::OrderWord => is_among(sort, &[Sort::Asc, Sort::Desc]),
        Class::ActionWord => is_among(sort, &[Sort::On, Sort::Match]),
        Class::OptionWord => is_among(sort, &[Sort::Without, Sort::Strict]),
        Class::BodyWord => is_among(
            sort,
            &[Sort::Primary, Sort::Unique, Sort::Check, Sort::Foreign],
        ),
        Class::DeferWord => is_among(sort, &[Sort::Not, Sort::Deferrable]),
        Class::ConstraintWord => begins_constraint(sort),
    }
}

// The keywords and all other bare words stand last among the sorts.
#[tactic(auto, using(crate::proofs::ClassTests::bare_by))]
fn is_bare(sort: Sort) -> bool
    ensures { result ≡ has any_bare (code sort) }
{
    code(sort) >= 11
}

#[tactic(auto, using(crate::proofs::ClassTests::has_both))]
fn is_name(sort: Sort) -> bool
    ensures { result ≡ has name (code sort) }
{
    is_among(sort, &[Sort::Quoted, Sort::Text]) || is_bare(sort)
}

#[tactic(auto, using(crate::proofs::ClassTests::has_without))]
fn is_column_name(sort: Sort) -> bool
    ensures { result ≡ has (class_of class.ColumnName) (code sort) }
{
    is_name(sort)
        && !is_among(
            sort,
            &[
                Sort::Constraint,
                Sort::Primary,
                Sort::Unique,
                Sort::Check,
                Sort::Foreign,
            ],
        )
}

#[tactic(auto, using(crate::proofs::ClassTests::has_without))]
fn is_type_word(sort: Sort) -> bool
    ensures { result ≡ has (class_of class.TypeWord) (code sort) }
{
    is_bare(sort)
        && !is_among(
            sort,
            &[
                Sort::Constraint,
                Sort::Primary,
                Sort::Not,
                Sort::Null,
                Sort::Unique,
                Sort::Check,
                Sort::Default,
                Sort::Collate,
                Sort::References,
                Sort::Generated,
                Sort::As,
                Sort::Deferrable,
            ],
        )
}

#[tactic(auto, using(crate::proofs::ClassTests::has_both))]
fn is_value(sort: Sort) -> bool
    ensures { result ≡ has (class_of class.Value) (code sort) }
{
    is_among(sort, &[Sort::Number, Sort::Blob]) || is_name(sort)
}

fn begins_constraint(sort: Sort) -> bool
    ensures { result ≡ has (class_of class.ConstraintWord) (code sort) }
{
    is_among(
        sort,
        &[
            Sort::Constraint,
            Sort::Not,
            Sort::Null,
            Sort::Primary,
            Sort::Unique,
            Sort::Check,
            Sort::Default,
            Sort::Collate,
            Sort::References,
            Sort::Deferrable,
            Sort::Generated,
            Sort::As,
        ],
    )
}

fn is_among(sort: Sort, sorts: &[Sort]) -> bool
    ensures { result ≡ has (codes_of sorts.now) (code sort) }
{
    for other in sorts {
        if code(sort) == code(*other) {
            return true;
        }
    }
    false
}
