use crate::rule::Rule;
use std::alloc::{AllocError, Global};
use std::marker::Model;

/// A set of rules. A contract sees it as a list of pairs in a strict order.
#[derive(Debug, Drop)]
pub(crate) struct RuleSet {
    rules: Vec<Rule>,
}

impl Model for RuleSet {
    ghost use Rattle.std.specs.Prelude.{List};
    ghost use Rattle.grants.specs.Pairs.{Pair, IsRising};

    ghost Value = { List Pair };

    ghost view = { λ s. s.rules.items };

    ghost invariant = { λ s. IsRising s.rules.items };
}

impl RuleSet {
    ghost use Rattle.std.specs.Prelude.{◌≡◌, [], false, IfOk, IfErr, OnOk, OnErr};
    ghost use Rattle.grants.specs.{Pairs.{pair, has_pair, with_pair, without_pair}, Places.{beside}};
    ghost use Rattle.list_facts.specs.Places.{IsAt, IsGapFor};

    /// The empty set. It takes no memory.
    pub(crate) fn new(alloc: Global) -> RuleSet
        ensures { result ≡ [] }
    {
        RuleSet {
            rules: Vec::new(alloc),
        }
    }

    /// Whether the rule is in the set, by halving.
    pub(crate) fn has(&self, user: &[u8], prefix: &[u8]) -> bool
        ensures { result ≡ has_pair (pair user.now prefix.now) self.now }
    {
        self.place(user, prefix).is_ok()
    }

    /// Puts the rule in; one that is there stays. The one error is want of memory.
    pub(crate) fn add(&mut self, alloc: Global, user: &str, prefix: &str) -> Result<(), AllocError>
        ensures ok { OnOk result (self.new ≡ with_pair (pair user.now prefix.now) self.old) }
        ensures err { OnErr result (self.new ≡ self.old) }
    {
        match self.find(user, prefix) {
            Ok(_) => Ok(()),
            Err(i) => {
                // The rule is made before the set is touched, so that a refusal leaves it as it was.
                let rule = Rule::of(alloc, user, prefix)?;
                Ok(self.rules.insert(i, rule)?)
            }
        }
    }

    /// Takes the rule out, and says whether it was there.
    pub(crate) fn remove(&mut self, user: &str, prefix: &str) -> bool
        ensures answer { result ≡ has_pair (pair user.now prefix.now) self.old }
        ensures left { self.new ≡ without_pair (pair user.now prefix.now) self.old }
        ensures stays { result ≡ false → self.new ≡ self.old }
    {
        match self.find(user, prefix) {
            Ok(i) => {
                self.rules.remove(i);
                true
            }
            Err(_) => false,
        }
    }

    /// The same set once more; the one error is want of memory.
    pub(crate) fn copy(&self, alloc: Global) -> Result<RuleSet, AllocError>
        ensures { IfOk result (λ set. set ≡ self.now) }
    {
        let mut rules = Vec::new(alloc);
        for rule in &self.rules {
            rules.push(rule.copy(alloc)?)?;
        }
        Ok(RuleSet { rules })
    }

    /// Where the rule is, or where it would go so that the order stays.
    fn find(&self, user: &str, prefix: &str) -> Result<usize, usize>
        ensures found { IfOk result (IsAt (beside (pair user.now prefix.now)) self.now) }
        ensures absent { IfErr result (IsGapFor (beside (pair user.now prefix.now)) self.now) }
    {
        self.place(user.as_bytes(), prefix.as_bytes())
    }

    /// The same for bytes, of which any part of a path is a slice. By halving, so it takes a number of comparisons that
    /// follows the logarithm of the number of rules.
    fn place(&self, user: &[u8], prefix: &[u8]) -> Result<usize, usize>
        ensures found { IfOk result (IsAt (beside (pair user.now prefix.now)) self.now) }
        ensures absent { IfErr result (IsGapFor (beside (pair user.now prefix.now)) self.now) }
    {
        self.rules.binary_search_by(|rule| rule.order(user, prefix))
    }
}
