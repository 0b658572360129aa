//! Stacks.

ghost use Rattle.std.specs.Prelude.{◌≡◌, List, [], ◌∷◌, drop, OnOk, MatchOption};

use geo_base::NoMemory;
use std::alloc::Global;
use std::marker::Model;

/// Values, each laid on the one before. Contracts see the list of them from the top down.
#[derive(Drop)]
pub(crate) struct Stack<T> {
    items: Vec<T>,
}

impl<T> Model for Stack<T> {
    ghost use Rattle.std.specs.Prelude.{List, reverse};
    ghost use Rattle.std.specs.Coded.{coded_list};

    ghost Value = { List T };

    ghost coded = { coded_list T.code };

    ghost view = { λ s. reverse s.items.items };
}

impl<T> Stack<T> {
    pub(crate) fn new(alloc: Global) -> Stack<T>
        ensures { result ≡ [] }
    {
        Stack {
            items: Vec::new(alloc),
        }
    }

    pub(crate) fn push(&mut self, value: T) -> Result<(), NoMemory>
    where
        T: Drop,
        ensures { OnOk result (self.new ≡ value ∷ self.old) }
    {
        self.items.push(value)?;
        Ok(())
    }

    pub(crate) fn pop(&mut self) -> Option<T>
        ensures { MatchOption result ((self.old ≡ []) × (self.new ≡ [])) (λ top. self.old ≡ top ∷ self.new) }
    {
        self.items.pop()
    }

    /// Takes the value off the top, if there is one.
    pub(crate) fn discard(&mut self)
    where
        T: Drop,
        ensures { self.new ≡ drop 1 self.old }
    {
        if let Some(top) = self.pop() {
            drop(top);
        }
    }

    /// The value on top.
    pub(crate) fn top(&self) -> Option<&T>
        ensures { MatchOption result (self.now ≡ []) (λ top. (rest : List T) × (self.now ≡ top.now ∷ rest)) }
    {
        self.items.last()
    }
}
