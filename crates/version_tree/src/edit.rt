use crate::text::{PathText, UserText};
use partial_path::SharedPaths;
use std::alloc::{AllocError, Global};
use std::fmt;

/// How many files a version may have.
pub const MAX_FILES: usize = 2_048;

/// How heavy the files of a version may be together.
pub const MAX_VERSION_WEIGHT: u64 = 24_000_000;

/// The number of a version that no other can follow.
pub const MAX_NUMBER: u32 = 1_000_000_000;

/// A change of a version.
#[derive(Drop)]
pub enum Edit {
    /// The file is put at the path, in place of one that is there.
    Put { path: PathText, paths: SharedPaths },
    /// The file at the path is removed.
    Remove { path: PathText },
    /// The user is granted what the prefix reaches.
    Grant { user: UserText, prefix: PathText },
    /// The user's grant of the prefix is taken away.
    Revoke { user: UserText, prefix: PathText },
    /// The user is denied what the prefix reaches.
    Deny { user: UserText, prefix: PathText },
    /// The user's deny of the prefix is taken away.
    Undeny { user: UserText, prefix: PathText },
}

impl Edit {
    ghost use Rattle.std.specs.Prelude.{◌≡◌, IfOk};
    ghost use Rattle.version_tree.specs.Passes.{is_of_rules};

    /// The same edit once more: its texts are copied, and the paths of a file are shared. The one error is
    /// want of memory.
    pub fn copy(&self, alloc: Global) -> Result<Edit, AllocError>
        ensures { IfOk result (λ edit. edit ≡ self.now) }
    {
        Ok(match self {
            Edit::Put { path, paths } => Edit::Put {
                path: path.copy(alloc)?,
                paths: paths.share()?,
            },
            Edit::Remove { path } => Edit::Remove {
                path: path.copy(alloc)?,
            },
            Edit::Grant { user, prefix } => Edit::Grant {
                user: user.copy(alloc)?,
                prefix: prefix.copy(alloc)?,
            },
            Edit::Revoke { user, prefix } => Edit::Revoke {
                user: user.copy(alloc)?,
                prefix: prefix.copy(alloc)?,
            },
            Edit::Deny { user, prefix } => Edit::Deny {
                user: user.copy(alloc)?,
                prefix: prefix.copy(alloc)?,
            },
            Edit::Undeny { user, prefix } => Edit::Undeny {
                user: user.copy(alloc)?,
                prefix: prefix.copy(alloc)?,
            },
        })
    }

    /// Whether it changes who may see what, and no file.
    pub(crate) fn is_of_rules(&self) -> bool
        ensures { result ≡ is_of_rules self.now }
    {
        match self {
            Edit::Put { .. } | Edit::Remove { .. } => false,
            Edit::Grant { .. } | Edit::Revoke { .. } | Edit::Deny { .. } | Edit::Undeny { .. } =>
                true,
        }
    }
}

/// Why edits are refused, in the order in which the refusals are looked for.
#[derive(Debug, Drop)]
pub enum EditFault {
    /// Two puts or removes name this path, the least such one.
    Twice(PathText),
    /// The first remove of a path that no row has.
    Absent(PathText),
    /// The first revoke of a grant that isn't there at that point.
    GrantAbsent(UserText, PathText),
    /// The first undeny of a deny that isn't there at that point.
    DenyAbsent(UserText, PathText),
    /// There would be more than `MAX_FILES` files: this many.
    TooManyFiles(u64),
    /// The files would be heavier together than `MAX_VERSION_WEIGHT`: this heavy.
    TooHeavy(u64),
    /// The version's number leaves none for the next.
    Spent,
    /// Memory was wanting.
    NoMemory,
}

impl fmt::Display for EditFault {
    fn fmt<W: fmt::Write>(&self, f: &mut fmt::Formatter<W>) -> fmt::Result {
        match self {
            EditFault::Twice(path) => write!(f, "{} is put or removed twice", path.as_str()),
            EditFault::Absent(path) => write!(f, "there is no file {}", path.as_str()),
            EditFault::GrantAbsent(user, prefix) => {
                write!(f, "{} has no grant of {}", user.as_str(), prefix.as_str())
            }
            EditFault::DenyAbsent(user, prefix) => {
                write!(f, "{} has no deny of {}", user.as_str(), prefix.as_str())
            }
            EditFault::TooManyFiles(n) => write!(f, "{n} files are too many"),
            EditFault::TooHeavy(weight) => write!(f, "a weight of {weight} is too much"),
            EditFault::Spent => f.write_str("the versions have no more numbers"),
            EditFault::NoMemory => f.write_str("memory was refused"),
        }
    }
}

impl From<AllocError> for EditFault {
    ghost use Rattle.std.specs.Prelude.{◌≡◌};
    ghost use Rattle.version_tree.specs.declared.edit.EditFault.TheVariants.{NoMemory};

    ghost from_gives = { λ _ e. e ≡ NoMemory };

    fn from(_e: AllocError) -> EditFault {
        EditFault::NoMemory
    }
}
