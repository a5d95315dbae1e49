//! The whole text, and the constraints of the table.

ghost use Rattle.word_grammar.specs.Form.{maybe, many, runs};
ghost use Rattle.create_grammar.specs.Grammar.{◌▷◌, a, as_a, body, column, columns, comma, defer, foreign, item, list_of, named, one, option, table, table_check, table_constraint, table_primary, table_unique};
ghost use Rattle.create_grammar.specs.Classes.{class_of};
ghost use Rattle.create_grammar.specs.declared.classes.Class.TheVariants.{One, Name};
ghost use Rattle.create_grammar.specs.Roles.{role_code};
ghost use Rattle.create_grammar.specs.declared.roles.Role.TheVariants as role;
ghost use Rattle.create_grammar.specs.declared.sorts.Sort.TheVariants as sort;
ghost use Rattle.create_grammar.specs.Pass.{Reads};

use crate::classes::Class;
use crate::pass::{Pass, Stop};
use crate::roles::Role;
use crate::sorts::Sort;

#[tactic(auto, using(crate::proofs::Steps::step, crate::proofs::Steps::cut))]
impl Pass<'_> {
    /// The whole text.
    pub fn table(&mut self) -> Result<(), Stop>
        ensures { Reads table self.old self.new result }
    {
        self.word(Role::Other, Class::One(Sort::Create))?;
        self.word(Role::Other, Class::One(Sort::Table))?;
        self.word(Role::TableName, Class::Name)?;
        self.word(Role::Other, Class::One(Sort::Open))?;
        self.columns()?;
        self.word(Role::Other, Class::One(Sort::Close))?;
        self.maybe_options()
    }

    fn columns(&mut self) -> Result<(), Stop>
        ensures { Reads columns self.old self.new result }
    {
        self.column()?;
        self.parts()
    }

    fn parts(&mut self) -> Result<(), Stop>
        ensures { Reads (runs (role_code role.Other) (class_of (One sort.Comma)) column
            table_constraint) self.old self.new result }
    {
        for _turn in self.at..self.sorts.len() {
            if !self.next_is(Class::One(Sort::Comma)) {
                return Ok(());
            }
            match self.word(Role::Other, Class::One(Sort::Comma)) {
                Ok(()) => {}
                Err(stop) => return Err(stop),
            }
            if !self.next_is(Class::ColumnName) {
                return self.table_constraints();
            }
            match self.column() {
                Ok(()) => {}
                Err(stop) => return Err(stop),
            }
        }
        Ok(())
    }

    fn table_constraints(&mut self) -> Result<(), Stop>
        ensures { Reads (list_of table_constraint) self.old self.new result }
    {
        self.table_constraint()?;
        self.more_constraints()
    }

    fn more_constraints(&mut self) -> Result<(), Stop>
        ensures { Reads (many (comma ▷ table_constraint)) self.old self.new result }
    {
        for _turn in self.at..self.sorts.len() {
            if !self.next_is(Class::One(Sort::Comma)) {
                return Ok(());
            }
            match self.next_constraint() {
                Ok(()) => {}
                Err(stop) => return Err(stop),
            }
        }
        Ok(())
    }

    fn next_constraint(&mut self) -> Result<(), Stop>
        ensures { Reads (comma ▷ table_constraint) self.old self.new result }
    {
        self.word(Role::Other, Class::One(Sort::Comma))?;
        self.table_constraint()
    }

    fn table_constraint(&mut self) -> Result<(), Stop>
        ensures { Reads table_constraint self.old self.new result }
    {
        if self.next_is(Class::One(Sort::Constraint)) {
            self.named_constraint()
        } else {
            self.body()
        }
    }

    fn named_constraint(&mut self) -> Result<(), Stop>
        ensures { Reads (named ▷ maybe body) self.old self.new result }
    {
        self.named()?;
        self.maybe_body()
    }

    fn maybe_body(&mut self) -> Result<(), Stop>
        ensures { Reads (maybe body) self.old self.new result }
    {
        if self.next_is(Class::BodyWord) {
            self.body()
        } else {
            Ok(())
        }
    }

    fn body(&mut self) -> Result<(), Stop>
        ensures { Reads body self.old self.new result }
    {
        if self.next_is(Class::One(Sort::Primary)) {
            self.table_primary()
        } else if self.next_is(Class::One(Sort::Unique)) {
            self.table_unique()
        } else if self.next_is(Class::One(Sort::Check)) {
            self.table_check()
        } else {
            self.foreign()
        }
    }

    fn table_primary(&mut self) -> Result<(), Stop>
        ensures { Reads table_primary self.old self.new result }
    {
        self.word(Role::TablePrimary, Class::One(Sort::Primary))?;
        self.word(Role::Other, Class::One(Sort::Key))?;
        self.word(Role::Other, Class::One(Sort::Open))?;
        self.items()?;
        self.maybe_autoincrement()?;
        self.word(Role::Other, Class::One(Sort::Close))?;
        self.maybe_conflict()
    }

    fn table_unique(&mut self) -> Result<(), Stop>
        ensures { Reads table_unique self.old self.new result }
    {
        self.word(Role::TableUnique, Class::One(Sort::Unique))?;
        self.word(Role::Other, Class::One(Sort::Open))?;
        self.items()?;
        self.word(Role::Other, Class::One(Sort::Close))?;
        self.maybe_conflict()
    }

    fn table_check(&mut self) -> Result<(), Stop>
        ensures { Reads table_check self.old self.new result }
    {
        self.check()?;
        self.maybe_conflict()
    }

    fn foreign(&mut self) -> Result<(), Stop>
        ensures { Reads foreign self.old self.new result }
    {
        self.word(Role::Other, Class::One(Sort::Foreign))?;
        self.word(Role::Other, Class::One(Sort::Key))?;
        self.names()?;
        self.references()?;
        self.maybe_defer()
    }

    fn maybe_defer(&mut self) -> Result<(), Stop>
        ensures { Reads (maybe defer) self.old self.new result }
    {
        if self.next_is(Class::DeferWord) {
            self.defer()
        } else {
            Ok(())
        }
    }

    fn defer(&mut self) -> Result<(), Stop>
        ensures { Reads defer self.old self.new result }
    {
        self.maybe_word(Role::Other, Class::One(Sort::Not))?;
        self.deferrable()
    }

    fn items(&mut self) -> Result<(), Stop>
        ensures { Reads (list_of item) self.old self.new result }
    {
        self.item()?;
        self.more_items()
    }

    fn more_items(&mut self) -> Result<(), Stop>
        ensures { Reads (many (comma ▷ item)) self.old self.new result }
    {
        for _turn in self.at..self.sorts.len() {
            if !self.next_is(Class::One(Sort::Comma)) {
                return Ok(());
            }
            match self.next_item() {
                Ok(()) => {}
                Err(stop) => return Err(stop),
            }
        }
        Ok(())
    }

    fn next_item(&mut self) -> Result<(), Stop>
        ensures { Reads (comma ▷ item) self.old self.new result }
    {
        self.word(Role::Other, Class::One(Sort::Comma))?;
        self.item()
    }

    fn item(&mut self) -> Result<(), Stop>
        ensures { Reads item self.old self.new result }
    {
        self.word(Role::KeyName, Class::Name)?;
        self.maybe_collation()?;
        self.maybe_order()
    }

    fn maybe_collation(&mut self) -> Result<(), Stop>
        ensures { Reads (maybe (as_a role.KeyMark (One sort.Collate) ▷ a Name))
            self.old self.new result }
    {
        if self.next_is(Class::One(Sort::Collate)) {
            self.collation()
        } else {
            Ok(())
        }
    }

    fn collation(&mut self) -> Result<(), Stop>
        ensures { Reads (as_a role.KeyMark (One sort.Collate) ▷ a Name) self.old self.new result }
    {
        self.word(Role::KeyMark, Class::One(Sort::Collate))?;
        self.word(Role::Other, Class::Name)
    }

    fn maybe_options(&mut self) -> Result<(), Stop>
        ensures { Reads (maybe (list_of option)) self.old self.new result }
    {
        if self.next_is(Class::OptionWord) {
            self.options()
        } else {
            Ok(())
        }
    }

    fn options(&mut self) -> Result<(), Stop>
        ensures { Reads (list_of option) self.old self.new result }
    {
        self.option()?;
        self.more_options()
    }

    fn more_options(&mut self) -> Result<(), Stop>
        ensures { Reads (many (comma ▷ option)) self.old self.new result }
    {
        for _turn in self.at..self.sorts.len() {
            if !self.next_is(Class::One(Sort::Comma)) {
                return Ok(());
            }
            match self.next_option() {
                Ok(()) => {}
                Err(stop) => return Err(stop),
            }
        }
        Ok(())
    }

    fn next_option(&mut self) -> Result<(), Stop>
        ensures { Reads (comma ▷ option) self.old self.new result }
    {
        self.word(Role::Other, Class::One(Sort::Comma))?;
        self.option()
    }

    fn option(&mut self) -> Result<(), Stop>
        ensures { Reads option self.old self.new result }
    {
        if self.next_is(Class::One(Sort::Without)) {
            self.without_rowid()
        } else {
            self.word(Role::Other, Class::One(Sort::Strict))
        }
    }

    fn without_rowid(&mut self) -> Result<(), Stop>
        ensures { Reads (as_a role.WithoutRowid (One sort.Without) ▷ one sort.Rowid)
            self.old self.new result }
    {
        self.word(Role::WithoutRowid, Class::One(Sort::Without))?;
        self.word(Role::Other, Class::One(Sort::Rowid))
    }
}
