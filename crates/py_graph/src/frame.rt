//! Where a statement stands: the scopes and nodes that its rows join it to.

ghost use Rattle.std.specs.Prelude.{◌≡◌, ◌+◌, min, option_map};
ghost use Rattle.py_graph.specs.Contexts as context;

use py_subset::{Atom, Primary, Word};
use std::marker::Model;

/// The context of a statement.
#[derive(Drop)]
pub struct Frame<'a> {
    /// The scope that takes bindings.
    binds: u32,
    /// The scope in which plain names are looked up.
    looks: u32,
    /// The nearest such scope that isn't a class's.
    outer: u32,
    /// The returns of the function.
    returns: Option<u32>,
    /// The members and the attributes of the class whose block this is.
    class: Option<(u32, u32)>,
    /// In a method's block, the first parameter's name and the attributes of its class.
    this: Option<(&'a str, u32)>,
    /// The precedence of the statement's bindings.
    rank: u16,
}

impl<'a> Model for Frame<'a> {
    ghost use Rattle.std.specs.Prelude.{option_map};
    ghost use Rattle.py_graph.specs.Contexts.{Context};

    ghost Value = { Context };

    ghost view = { λ f. record {
      b = f.binds;
      l = f.looks;
      o = f.outer;
      r = f.returns;
      class = f.class;
      self = option_map (λ z. (z.0.now, z.1)) f.this;
      p = f.rank;
    } };
}

impl<'a> Frame<'a> {
    ghost use Rattle.std.specs.Prelude.{◌≡◌, option_map};
    ghost use Rattle.py_graph.specs.Statements.{self_in};
    ghost use Rattle.py_graph.specs.Contexts as context;

    /// The block of a module with this scope.
    pub fn in_module(scope: u32) -> Frame<'a>
        ensures { result ≡ context.in_module scope }
    {
        Frame {
            binds: scope,
            looks: scope,
            outer: scope,
            returns: None,
            class: None,
            this: None,
            rank: 0,
        }
    }

    /// The block of a function with this scope and these returns. `class` has the members and
    /// attributes of the class in whose block the function stands.
    pub fn in_function(
        scope: u32,
        returns: u32,
        class: Option<(u32, u32)>,
        parameters: &'a [Word],
    ) -> Frame<'a>
        ensures { result ≡ context.in_function scope returns
            (context.self_of class parameters.now) }
    {
        Frame {
            binds: scope,
            looks: scope,
            outer: scope,
            returns: Some(returns),
            class: None,
            this: this_of(class, parameters),
            rank: 0,
        }
    }

    /// The block of a class that stands here, with the scope that binds, the scope for plain names,
    /// and the class's members and attributes.
    pub fn in_class(&self, binds: u32, looks: u32, class: (u32, u32)) -> Frame<'a>
        ensures { result ≡ context.in_class binds looks class self.now }
    {
        Frame {
            binds,
            looks,
            outer: self.outer,
            returns: None,
            class: Some(class),
            this: None,
            rank: 0,
        }
    }

    /// The context of the statement at a place, from 1.
    pub fn at_place(&self, i: usize) -> Frame<'a>
        ensures { result ≡ context.at_place i self.now }
    {
        Frame {
            binds: self.binds,
            looks: self.looks,
            outer: self.outer,
            returns: self.returns,
            class: self.class,
            this: self.this,
            rank: rank_of(i),
        }
    }

    /// The scope that takes bindings.
    pub fn binds(&self) -> u32
        ensures { result ≡ self.now.b }
    {
        self.binds
    }

    /// The scope in which plain names are looked up.
    pub fn looks(&self) -> u32
        ensures { result ≡ self.now.l }
    {
        self.looks
    }

    /// The nearest such scope that isn't a class's.
    pub fn outer(&self) -> u32
        ensures { result ≡ self.now.o }
    {
        self.outer
    }

    /// The returns of the function.
    pub fn returns(&self) -> Option<u32>
        ensures { result ≡ self.now.r }
    {
        self.returns
    }

    /// The members and the attributes of the class whose block this is.
    pub fn class(&self) -> Option<(u32, u32)>
        ensures { result ≡ self.now.class }
    {
        self.class
    }

    /// The precedence of the statement's bindings.
    pub fn rank(&self) -> u16
        ensures { result ≡ self.now.p }
    {
        self.rank
    }

    /// The bare name that a target is a member of, where it is self's name, with self's attributes.
    pub fn self_in<'b, 'c>(&self, t: &'b Primary<'c>) -> Option<(&'b Word<'c>, u32)>
        ensures { option_map (λ z. (z.0.now, z.1)) result ≡ self_in t.now self.now.self }
    {
        if !t.posts.is_empty() {
            return None;
        }
        let Some((name, attributes)) = self.this else {
            return None;
        };
        match &t.atom {
            Atom::Name(s) if s.text.as_str() == name => Some((s, attributes)),
            Atom::Name(_) | Atom::Round(_) | Atom::Square(_) => None,
            Atom::Number | Atom::Text | Atom::TrueWord | Atom::FalseWord | Atom::NoneWord => None,
        }
    }
}

/// The name of a method's first parameter, and the attributes of its class.
fn this_of<'a>(class: Option<(u32, u32)>, parameters: &'a [Word]) -> Option<(&'a str, u32)>
    ensures { option_map (λ z. (z.0.now, z.1)) result ≡ context.self_of class parameters.now }
{
    match (class, parameters) {
        (Some((_, attributes)), [first, ..]) => Some((first.text.as_str(), attributes)),
        (Some(_), []) | (None, _) => None,
    }
}

/// The precedence of the statement at a place, from 1: one more than the place, at most 65,535.
fn rank_of(i: usize) -> u16
    ensures { result ≡ min (i + 1) 65535 }
{
    if i < 65_535 { (i + 1) as u16 } else { 65_535 }
}
