//! Parts of the grammar that columns and constraints of the table share.

ghost use Rattle.word_grammar.specs.Form.{maybe, many};
ghost use Rattle.create_grammar.specs.Grammar.{◌▷◌, a, action, autoincrement, check, comma, conflict, deferrable, effect, initially, list_of, named, names, one, order, references};
ghost use Rattle.create_grammar.specs.declared.classes.Class.TheVariants.{Name, Event, NullOrDefault};
ghost use Rattle.create_grammar.specs.declared.sorts.Sort.TheVariants as sort;
ghost use Rattle.create_grammar.specs.Pass.{Reads};

use crate::classes::Class;
use crate::pass::{Pass, Stop};
use crate::roles::Role;
use crate::sorts::Sort;

#[tactic(auto, using(crate::proofs::Steps::step, crate::proofs::Steps::cut))]
impl Pass<'_> {
    /// `ON CONFLICT` and a word, or nothing.
    pub fn maybe_conflict(&mut self) -> Result<(), Stop>
        ensures { Reads (maybe conflict) self.old self.new result }
    {
        if self.next_is(Class::One(Sort::On)) {
            self.conflict()
        } else {
            Ok(())
        }
    }

    fn conflict(&mut self) -> Result<(), Stop>
        ensures { Reads conflict self.old self.new result }
    {
        self.word(Role::Other, Class::One(Sort::On))?;
        self.word(Role::Other, Class::One(Sort::Conflict))?;
        self.word(Role::Other, Class::AnyBare)
    }

    /// `ASC`, `DESC` or nothing.
    pub fn maybe_order(&mut self) -> Result<(), Stop>
        ensures { Reads (maybe order) self.old self.new result }
    {
        if self.next_is(Class::OrderWord) {
            self.order()
        } else {
            Ok(())
        }
    }

    fn order(&mut self) -> Result<(), Stop>
        ensures { Reads order self.old self.new result }
    {
        if self.next_is(Class::One(Sort::Asc)) {
            self.word(Role::Other, Class::One(Sort::Asc))
        } else {
            self.word(Role::KeyMark, Class::One(Sort::Desc))
        }
    }

    /// `AUTOINCREMENT` or nothing.
    pub fn maybe_autoincrement(&mut self) -> Result<(), Stop>
        ensures { Reads (maybe autoincrement) self.old self.new result }
    {
        self.maybe_word(Role::Auto, Class::One(Sort::Autoincrement))
    }

    /// `DEFERRABLE`, and when it is checked at first.
    pub fn deferrable(&mut self) -> Result<(), Stop>
        ensures { Reads deferrable self.old self.new result }
    {
        self.word(Role::Other, Class::One(Sort::Deferrable))?;
        self.maybe_initially()
    }

    fn maybe_initially(&mut self) -> Result<(), Stop>
        ensures { Reads (maybe initially) self.old self.new result }
    {
        if self.next_is(Class::One(Sort::Initially)) {
            self.initially()
        } else {
            Ok(())
        }
    }

    fn initially(&mut self) -> Result<(), Stop>
        ensures { Reads initially self.old self.new result }
    {
        self.word(Role::Other, Class::One(Sort::Initially))?;
        self.word(Role::Other, Class::Deferral)
    }

    /// `CONSTRAINT` and a name.
    pub fn named(&mut self) -> Result<(), Stop>
        ensures { Reads named self.old self.new result }
    {
        self.word(Role::Other, Class::One(Sort::Constraint))?;
        self.word(Role::Other, Class::Name)
    }

    /// `CHECK` and a group.
    pub fn check(&mut self) -> Result<(), Stop>
        ensures { Reads check self.old self.new result }
    {
        self.word(Role::Other, Class::One(Sort::Check))?;
        self.group()
    }

    /// Names in parentheses.
    pub fn names(&mut self) -> Result<(), Stop>
        ensures { Reads names self.old self.new result }
    {
        self.word(Role::Other, Class::One(Sort::Open))?;
        self.name_list()?;
        self.word(Role::Other, Class::One(Sort::Close))
    }

    fn name_list(&mut self) -> Result<(), Stop>
        ensures { Reads (list_of (a Name)) self.old self.new result }
    {
        self.word(Role::Other, Class::Name)?;
        self.more_names()
    }

    fn more_names(&mut self) -> Result<(), Stop>
        ensures { Reads (many (comma ▷ a Name)) self.old self.new result }
    {
        for _turn in self.at..self.sorts.len() {
            if !self.next_is(Class::One(Sort::Comma)) {
                return Ok(());
            }
            match self.next_name() {
                Ok(()) => {}
                Err(stop) => return Err(stop),
            }
        }
        Ok(())
    }

    fn next_name(&mut self) -> Result<(), Stop>
        ensures { Reads (comma ▷ a Name) self.old self.new result }
    {
        self.word(Role::Other, Class::One(Sort::Comma))?;
        self.word(Role::Other, Class::Name)
    }

    /// `REFERENCES`, and what it names and does.
    pub fn references(&mut self) -> Result<(), Stop>
        ensures { Reads references self.old self.new result }
    {
        self.word(Role::Other, Class::One(Sort::References))?;
        self.word(Role::Other, Class::Name)?;
        self.maybe_names()?;
        self.actions()
    }

    fn maybe_names(&mut self) -> Result<(), Stop>
        ensures { Reads (maybe names) self.old self.new result }
    {
        if self.next_is(Class::One(Sort::Open)) {
            self.names()
        } else {
            Ok(())
        }
    }

    fn actions(&mut self) -> Result<(), Stop>
        ensures { Reads (many action) self.old self.new result }
    {
        for _turn in self.at..self.sorts.len() {
            if !self.next_is(Class::ActionWord) {
                return Ok(());
            }
            match self.action() {
                Ok(()) => {}
                Err(stop) => return Err(stop),
            }
        }
        Ok(())
    }

    fn action(&mut self) -> Result<(), Stop>
        ensures { Reads action self.old self.new result }
    {
        if self.next_is(Class::One(Sort::On)) {
            self.event()
        } else {
            self.matching()
        }
    }

    fn event(&mut self) -> Result<(), Stop>
        ensures { Reads (one sort.On ▷ a Event ▷ effect) self.old self.new result }
    {
        self.word(Role::Other, Class::One(Sort::On))?;
        self.word(Role::Other, Class::Event)?;
        self.effect()
    }

    fn matching(&mut self) -> Result<(), Stop>
        ensures { Reads (one sort.Match ▷ a Name) self.old self.new result }
    {
        self.word(Role::Other, Class::One(Sort::Match))?;
        self.word(Role::Other, Class::Name)
    }

    fn effect(&mut self) -> Result<(), Stop>
        ensures { Reads effect self.old self.new result }
    {
        if self.next_is(Class::One(Sort::Set)) {
            self.set_effect()
        } else if self.next_is(Class::Effect) {
            self.word(Role::Other, Class::Effect)
        } else {
            self.no_action()
        }
    }

    fn set_effect(&mut self) -> Result<(), Stop>
        ensures { Reads (one sort.Set ▷ a NullOrDefault) self.old self.new result }
    {
        self.word(Role::Other, Class::One(Sort::Set))?;
        self.word(Role::Other, Class::NullOrDefault)
    }

    fn no_action(&mut self) -> Result<(), Stop>
        ensures { Reads (one sort.No ▷ one sort.Action) self.old self.new result }
    {
        self.word(Role::Other, Class::One(Sort::No))?;
        self.word(Role::Other, Class::One(Sort::Action))
    }
}
