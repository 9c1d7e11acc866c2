ghost use Rattle.std.specs.Prelude.{◌≡◌, ◌≤◌, length};
ghost use Rattle.grants.specs.{Covers.{is_granted}, Steps.{is_cut, verdict_at}};

use crate::rule_set::RuleSet;
use std::alloc::{AllocError, Global};
use std::fmt;
use std::marker::Model;

/// Why a grant or a deny can't be taken away.
#[derive(Clone, Copy, Debug, PartialEq, Eq)]
pub enum GrantFault {
    /// There is none of this user and prefix.
    Absent,
    /// Memory was wanting.
    NoMemory,
}

impl fmt::Display for GrantFault {
    fn fmt<W: fmt::Write>(&self, f: &mut fmt::Formatter<W>) -> fmt::Result {
        f.write_str(match self {
            GrantFault::Absent => "there is none of this user and prefix",
            GrantFault::NoMemory => "memory was refused",
        })
    }
}

/// The grants and the denies, each a set of pairs of a user and a prefix.
///
/// The longest prefix that reaches a path decides; where it is both granted and denied, the user
/// is denied. A prefix reaches the path equal to it and every path that begins with it and `/`;
/// the empty prefix reaches all. The user `operator` sees every path, whatever the rules.
#[derive(Debug, Drop)]
pub struct Grants {
    granted: RuleSet,
    denied: RuleSet,
}

impl Model for Grants {
    ghost use Rattle.grants.specs.Covers.{Rules};

    ghost Value = { Rules };

    ghost view = { λ g. record { granted = g.granted; denied = g.denied } };
}

impl Grants {
    ghost use Rattle.std.specs.Prelude.{◌≡◌, [], true, false, IfOk, OnOk, OnErr, MatchResult};
    ghost use Rattle.grants.specs.{Pairs.{pair, has_pair}, Covers.{covers, with_grant, without_grant, with_deny, without_deny}};

    /// No grants and no denies. It takes no memory.
    pub fn new(alloc: Global) -> Grants
        ensures { result ≡ record { granted = []; denied = [] } }
    {
        Grants {
            granted: RuleSet::new(alloc),
            denied: RuleSet::new(alloc),
        }
    }

    /// Grants the user what the prefix reaches; a grant that is there stays. The one error is want
    /// of memory, and then nothing has changed.
    pub fn add(&mut self, alloc: Global, user: &str, prefix: &str) -> Result<(), AllocError>
        ensures ok { OnOk result (self.new ≡ with_grant (pair user.now prefix.now) self.old) }
        ensures err { OnErr result (self.new ≡ self.old) }
    {
        self.granted.add(alloc, user, prefix)
    }

    /// Takes the user's grant of the prefix away; `Absent` exactly where there is none, and then
    /// nothing has changed. It takes no memory.
    pub fn remove(&mut self, user: &str, prefix: &str) -> Result<(), GrantFault>
        ensures answer { MatchResult result
            (λ _. has_pair (pair user.now prefix.now) self.old.granted ≡ true)
            (λ e. (e ≡ GrantFault.Absent)
            × (has_pair (pair user.now prefix.now) self.old.granted ≡ false)) }
        ensures ok { OnOk result (self.new ≡ without_grant (pair user.now prefix.now) self.old) }
        ensures err { OnErr result (self.new ≡ self.old) }
    {
        if self.granted.remove(user, prefix) {
            Ok(())
        } else {
            Err(GrantFault::Absent)
        }
    }

    /// Denies the user what the prefix reaches; a deny that is there stays. The one error is want
    /// of memory, and then nothing has changed.
    pub fn deny(&mut self, alloc: Global, user: &str, prefix: &str) -> Result<(), AllocError>
        ensures ok { OnOk result (self.new ≡ with_deny (pair user.now prefix.now) self.old) }
        ensures err { OnErr result (self.new ≡ self.old) }
    {
        self.denied.add(alloc, user, prefix)
    }

    /// Takes the user's deny of the prefix away; `Absent` exactly where there is none, and then
    /// nothing has changed. It takes no memory.
    pub fn undeny(&mut self, user: &str, prefix: &str) -> Result<(), GrantFault>
        ensures answer { MatchResult result
            (λ _. has_pair (pair user.now prefix.now) self.old.denied ≡ true)
            (λ e. (e ≡ GrantFault.Absent)
            × (has_pair (pair user.now prefix.now) self.old.denied ≡ false)) }
        ensures ok { OnOk result (self.new ≡ without_deny (pair user.now prefix.now) self.old) }
        ensures err { OnErr result (self.new ≡ self.old) }
    {
        if self.denied.remove(user, prefix) {
            Ok(())
        } else {
            Err(GrantFault::Absent)
        }
    }

    /// The same grants and denies once more; the one error is want of memory.
    pub fn copy(&self, alloc: Global) -> Result<Grants, AllocError>
        ensures { IfOk result (λ grants. grants ≡ self.now) }
    {
        Ok(Grants {
            granted: self.granted.copy(alloc)?,
            denied: self.denied.copy(alloc)?,
        })
    }

    /// Whether the user may see a file at the path. It takes no memory, and looks each set up once
    /// for each part of the path, by halving.
    #[tactic(auto, unfolding(crate::specs::Covers::covers))]
    pub fn covers(&self, user: &str, path: &str) -> bool
        ensures { result ≡ covers self.now user.now path.now }
    {
        user == "operator"
            || is_granted(
                &self.granted,
                &self.denied,
                user.as_bytes(),
                path.as_bytes(),
            )
    }
}

/// Whether the longest prefix that reaches the path and has a rule is granted and not denied. Lengths are tried from
/// the path's down to 0, so the first rule that is met decides.
fn is_granted(granted: &RuleSet, denied: &RuleSet, user: &[u8], path: &[u8]) -> bool
    ensures { result ≡ is_granted
        (record { granted = granted.now; denied = denied.now }) user.now path.now }
{
    let mut end = path.len();
    while end > 0 {
        if let Some(verdict) = verdict_at(granted, denied, user, path, end) {
            return verdict;
        }
        end -= 1;
    }
    verdict_at(granted, denied, user, path, 0).unwrap_or(false)
}

/// What a rule for the first `end` bytes of the path says, where there is one. The denies are asked first, since a
/// deny outweighs a grant of the same prefix.
#[tactic(auto, unfolding(crate::specs::Steps::verdict_at))]
fn verdict_at(
    granted: &RuleSet,
    denied: &RuleSet,
    user: &[u8],
    path: &[u8],
    end: usize,
) -> Option<bool>
    requires { end ≤ length path.now }
    ensures { result ≡ verdict_at
        (record { granted = granted.now; denied = denied.now }) user.now path.now end }
{
    if !is_cut(path, end) {
        None
    } else if denied.has(user, &path[..end]) {
        Some(false)
    } else if granted.has(user, &path[..end]) {
        Some(true)
    } else {
        None
    }
}

/// Whether the first `end` bytes of the path are a prefix that reaches it: none, all, or those before a `/`.
#[tactic(auto, unfolding(crate::specs::Steps::is_cut))]
fn is_cut(path: &[u8], end: usize) -> bool
    ensures { result ≡ is_cut path.now end }
{
    end == 0 || path.len() <= end || path[end] == b'/'
}
