use std::alloc::{AllocError, Global};
use std::cmp::Ordering;
use std::marker::Model;

/// A user and a prefix. A contract sees the bytes of both.
#[derive(Debug, Drop)]
pub(crate) struct Rule {
    user: String,
    prefix: String,
}

impl Model for Rule {
    ghost use Rattle.std.specs.String.{string_bytes};
    ghost use Rattle.grants.specs.Pairs.{Pair, pair};

    ghost Value = { Pair };

    ghost view = { λ r. pair (string_bytes r.user) (string_bytes r.prefix) };
}

impl Rule {
    ghost use Rattle.std.specs.Prelude.{◌≡◌, IfOk};
    ghost use Rattle.grants.specs.Pairs.{pair, pair_cmp};

    /// The rule for this user and prefix; the one error is want of memory.
    pub(crate) fn of(alloc: Global, user: &str, prefix: &str) -> Result<Rule, AllocError>
        ensures { IfOk result (λ rule. rule ≡ pair user.now prefix.now) }
    {
        Ok(Rule {
            user: String::from_str(alloc, user)?,
            prefix: String::from_str(alloc, prefix)?,
        })
    }

    /// The same rule once more; the one error is want of memory.
    pub(crate) fn copy(&self, alloc: Global) -> Result<Rule, AllocError>
        ensures { IfOk result (λ rule. rule ≡ self.now) }
    {
        Rule::of(alloc, self.user.as_str(), self.prefix.as_str())
    }

    /// Where it stands in the order of users, then of prefixes, beside this user and prefix.
    pub(crate) fn order(&self, user: &[u8], prefix: &[u8]) -> Ordering
        ensures { result ≡ pair_cmp self.now (pair user.now prefix.now) }
    {
        self.user
            .as_bytes()
            .cmp(user)
            .then(self.prefix.as_bytes().cmp(prefix))
    }
}
