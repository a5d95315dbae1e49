//! A pass over the words of a text.

ghost use Rattle.std.specs.Prelude.{◌≡◌, ◌+◌, ◌<◌, ◌≤◌, ℕ, List, [], ◌∷◌, IfOk, OnOk, length, ◌^◌};
ghost use Rattle.create_grammar.specs.Classes.{class_of};
ghost use Rattle.create_grammar.specs.Roles.{role_code};
ghost use Rattle.create_grammar.specs.Sorts.{code};
ghost use Rattle.word_grammar.specs.Form.{depth_behind, group, maybe, word};
ghost use Rattle.word_grammar.specs.Reading.{next_in, reads_inside, took};

use crate::classes::{Class, is_of};
use crate::roles::Role;
use crate::sorts::{Sort, code};

/// Why a pass stops.
#[derive(Clone, Copy, Debug, PartialEq, Eq)]
pub enum Stop {
    /// The word at this place does not go on with the grammar.
    Form(usize),
    Memory,
}

/// The sorts of the words, how many of them were read, and their roles.
#[derive(Drop)]
pub struct Pass<'a> {
    pub sorts: &'a [Sort],
    pub at: usize,
    pub roles: Vec<Role>,
}

impl Pass<'_> {
    ghost use Rattle.create_grammar.specs.Pass.{Did, Goes, Reads, rest_of};

    /// Whether there is a next word, and it is of the class.
    pub fn next_is(&self, class: Class) -> bool
        ensures { result ≡ next_in (class_of class) (rest_of self.now) }
    {
        match self.sorts.get(self.at) {
            Some(sort) => is_of(*sort, class),
            None => false,
        }
    }

    /// Reads a word.
    pub fn word(&mut self, role: Role, class: Class) -> Result<(), Stop>
        ensures { Reads (word (role_code role) (class_of class)) self.old self.new result }
    {
        match self.sorts.get(self.at) {
            Some(sort) => {
                if is_of(*sort, class) {
                    self.take(role)
                } else {
                    Err(Stop::Form(self.at))
                }
            }
            None => Err(Stop::Form(self.at)),
        }
    }

    // Reads the next word, whatever it is.
    fn take(&mut self, role: Role) -> Result<(), Stop>
        requires { self.old.at < length self.old.sorts.now }
        ensures took { (w : ℕ) (ws : List ℕ) → rest_of self.old ≡ w ∷ ws
            → Did (took ((role_code role, w) ∷ []) ws) self.old self.new result }
        ensures at { OnOk result (self.new.at ≡ self.old.at + 1) }
        ensures sorts { self.new.sorts.now ≡ self.old.sorts.now }
    {
        match self.roles.push(role) {
            Ok(()) => {}
            Err(_) => return Err(Stop::Memory),
        }
        self.at += 1;
        Ok(())
    }

    /// Reads a word, where it comes next.
    pub fn maybe_word(&mut self, role: Role, class: Class) -> Result<(), Stop>
        ensures { Reads (maybe (word (role_code role) (class_of class))) self.old self.new result }
    {
        if self.next_is(class) {
            self.word(role, class)
        } else {
            Ok(())
        }
    }

    /// Reads a group in parentheses.
    #[tactic(auto, using(crate::proofs::Steps::step, crate::proofs::Steps::cut))]
    pub fn group(&mut self) -> Result<(), Stop>
        ensures { Reads group self.old self.new result }
    {
        self.word(Role::Other, Class::One(Sort::Open))?;
        self.inside()
    }

    // The rest of a group.
    fn inside(&mut self) -> Result<(), Stop>
        requires { 0 < self.old.at }
        ensures { Did (reads_inside 1 (rest_of self.old)) self.old self.new result }
    {
        let mut depth = 1;
        for _turn in self.at..self.sorts.len() {
            match self.one_inside(depth) {
                Ok(deeper) => depth = deeper,
                Err(stop) => return Err(stop),
            }
            if depth == 0 {
                return Ok(());
            }
        }
        Err(Stop::Form(self.at))
    }

    // One word of the rest of a group; the depth behind it.
    fn one_inside(&mut self, depth: usize) -> Result<usize, Stop>
        requires some { 0 < depth }
        requires small { depth ≤ self.old.at }
        requires more { self.old.at < length self.old.sorts.now }
        ensures goes { Goes depth self.old self.new result }
        ensures depth { IfOk result (λ deeper. deeper ≤ depth + 1) }
        ensures at { IfOk result (λ deeper. self.new.at ≡ self.old.at + 1) }
        ensures sorts { self.new.sorts.now ≡ self.old.sorts.now }
    {
        let sort = self.sorts[self.at];
        if code(sort) == code(Sort::Bad) {
            return Err(Stop::Form(self.at));
        }
        match self.take(Role::Other) {
            Ok(()) => Ok(depth_behind(depth - 1, sort)),
            Err(stop) => Err(stop),
        }
    }
}

// The depth behind a word that stands one deeper.
fn depth_behind(outer: usize, sort: Sort) -> usize
    requires { outer + 2 < 2 ^ 64 }
    ensures value { result ≡ depth_behind outer (code sort) }
    ensures bound { result ≤ outer + 2 }
{
    if code(sort) == code(Sort::Open) {
        outer + 2
    } else if code(sort) == code(Sort::Close) {
        outer
    } else {
        outer + 1
    }
}
