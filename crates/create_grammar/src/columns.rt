//! Columns: names, types and constraints.

ghost use Rattle.word_grammar.specs.Form.{maybe, many};
ghost use Rattle.create_grammar.specs.Grammar.{◌▷◌, collate, column, comma, constraint, default, denial, denied, generated, null, number, one, primary, signed, size, type_word, types, unique, value};
ghost use Rattle.create_grammar.specs.declared.sorts.Sort.TheVariants as sort;
ghost use Rattle.create_grammar.specs.Pass.{Reads};

use crate::classes::Class;
use crate::pass::{Pass, Stop};
use crate::roles::Role;
use crate::sorts::Sort;

#[tactic(auto, using(crate::proofs::Steps::step, crate::proofs::Steps::cut))]
impl Pass<'_> {
    /// A column: its name, its type and its constraints.
    pub fn column(&mut self) -> Result<(), Stop>
        ensures { Reads column self.old self.new result }
    {
        self.word(Role::ColumnName, Class::ColumnName)?;
        self.maybe_types()?;
        self.constraints()
    }

    fn maybe_types(&mut self) -> Result<(), Stop>
        ensures { Reads (maybe types) self.old self.new result }
    {
        if self.next_is(Class::TypeWord) {
            self.types()
        } else {
            Ok(())
        }
    }

    fn types(&mut self) -> Result<(), Stop>
        ensures { Reads types self.old self.new result }
    {
        self.word(Role::TypeWord, Class::TypeWord)?;
        self.more_type_words()?;
        self.maybe_size()
    }

    fn more_type_words(&mut self) -> Result<(), Stop>
        ensures { Reads (many type_word) self.old self.new result }
    {
        for _turn in self.at..self.sorts.len() {
            if !self.next_is(Class::TypeWord) {
                return Ok(());
            }
            match self.type_word() {
                Ok(()) => {}
                Err(stop) => return Err(stop),
            }
        }
        Ok(())
    }

    fn type_word(&mut self) -> Result<(), Stop>
        ensures { Reads type_word self.old self.new result }
    {
        self.word(Role::TypeWord, Class::TypeWord)
    }

    fn maybe_size(&mut self) -> Result<(), Stop>
        ensures { Reads (maybe size) self.old self.new result }
    {
        if self.next_is(Class::One(Sort::Open)) {
            self.size()
        } else {
            Ok(())
        }
    }

    fn size(&mut self) -> Result<(), Stop>
        ensures { Reads size self.old self.new result }
    {
        self.word(Role::TypeOpen, Class::One(Sort::Open))?;
        self.number()?;
        self.maybe_scale()?;
        self.word(Role::Other, Class::One(Sort::Close))
    }

    fn number(&mut self) -> Result<(), Stop>
        ensures { Reads number self.old self.new result }
    {
        self.maybe_word(Role::Other, Class::Sign)?;
        self.word(Role::Other, Class::One(Sort::Number))
    }

    fn maybe_scale(&mut self) -> Result<(), Stop>
        ensures { Reads (maybe (comma ▷ number)) self.old self.new result }
    {
        if self.next_is(Class::One(Sort::Comma)) {
            self.scale()
        } else {
            Ok(())
        }
    }

    fn scale(&mut self) -> Result<(), Stop>
        ensures { Reads (comma ▷ number) self.old self.new result }
    {
        self.word(Role::Other, Class::One(Sort::Comma))?;
        self.number()
    }

    fn constraints(&mut self) -> Result<(), Stop>
        ensures { Reads (many constraint) self.old self.new result }
    {
        for _turn in self.at..self.sorts.len() {
            if !self.next_is(Class::ConstraintWord) {
                return Ok(());
            }
            match self.constraint() {
                Ok(()) => {}
                Err(stop) => return Err(stop),
            }
        }
        Ok(())
    }

    fn constraint(&mut self) -> Result<(), Stop>
        ensures { Reads constraint self.old self.new result }
    {
        if self.next_is(Class::One(Sort::Constraint)) {
            self.named()
        } else if self.next_is(Class::One(Sort::Not)) {
            self.denial()
        } else if self.next_is(Class::One(Sort::Null)) {
            self.null()
        } else if self.next_is(Class::One(Sort::Primary)) {
            self.primary()
        } else if self.next_is(Class::One(Sort::Unique)) {
            self.unique()
        } else if self.next_is(Class::One(Sort::Check)) {
            self.check()
        } else if self.next_is(Class::One(Sort::Default)) {
            self.default()
        } else if self.next_is(Class::One(Sort::Collate)) {
            self.collate()
        } else if self.next_is(Class::One(Sort::References)) {
            self.references()
        } else if self.next_is(Class::One(Sort::Deferrable)) {
            self.deferrable()
        } else {
            self.generated()
        }
    }

    fn denial(&mut self) -> Result<(), Stop>
        ensures { Reads denial self.old self.new result }
    {
        self.word(Role::Other, Class::One(Sort::Not))?;
        self.denied()
    }

    fn denied(&mut self) -> Result<(), Stop>
        ensures { Reads denied self.old self.new result }
    {
        if self.next_is(Class::One(Sort::Null)) {
            self.null()
        } else {
            self.deferrable()
        }
    }

    fn null(&mut self) -> Result<(), Stop>
        ensures { Reads null self.old self.new result }
    {
        self.word(Role::Other, Class::One(Sort::Null))?;
        self.maybe_conflict()
    }

    fn primary(&mut self) -> Result<(), Stop>
        ensures { Reads primary self.old self.new result }
    {
        self.word(Role::ColumnPrimary, Class::One(Sort::Primary))?;
        self.word(Role::Other, Class::One(Sort::Key))?;
        self.maybe_order()?;
        self.maybe_conflict()?;
        self.maybe_autoincrement()
    }

    fn unique(&mut self) -> Result<(), Stop>
        ensures { Reads unique self.old self.new result }
    {
        self.word(Role::ColumnUnique, Class::One(Sort::Unique))?;
        self.maybe_conflict()
    }

    fn default(&mut self) -> Result<(), Stop>
        ensures { Reads default self.old self.new result }
    {
        self.word(Role::Other, Class::One(Sort::Default))?;
        self.value()
    }

    fn value(&mut self) -> Result<(), Stop>
        ensures { Reads value self.old self.new result }
    {
        if self.next_is(Class::One(Sort::Open)) {
            self.group()
        } else {
            self.signed()
        }
    }

    fn signed(&mut self) -> Result<(), Stop>
        ensures { Reads signed self.old self.new result }
    {
        self.maybe_word(Role::Other, Class::Sign)?;
        self.word(Role::Other, Class::Value)
    }

    fn collate(&mut self) -> Result<(), Stop>
        ensures { Reads collate self.old self.new result }
    {
        self.word(Role::Other, Class::One(Sort::Collate))?;
        self.word(Role::ColumnCollate, Class::Name)
    }

    fn generated(&mut self) -> Result<(), Stop>
        ensures { Reads generated self.old self.new result }
    {
        self.maybe_always()?;
        self.word(Role::Generated, Class::One(Sort::As))?;
        self.group()?;
        self.maybe_word(Role::Other, Class::Storage)
    }

    fn maybe_always(&mut self) -> Result<(), Stop>
        ensures { Reads (maybe (one sort.Generated ▷ one sort.Always)) self.old self.new result }
    {
        if self.next_is(Class::One(Sort::Generated)) {
            self.always()
        } else {
            Ok(())
        }
    }

    fn always(&mut self) -> Result<(), Stop>
        ensures { Reads (one sort.Generated ▷ one sort.Always) self.old self.new result }
    {
        self.word(Role::Other, Class::One(Sort::Generated))?;
        self.word(Role::Other, Class::One(Sort::Always))
    }
}
