use grants::Grants;
use std::alloc::{AllocError, Global};
use std::marker::Model;
use std::sync::Arc;

/// Grants and denies, held by all versions that have just these. A contract sees them as the rules.
#[derive(Drop)]
pub(crate) struct SharedRules {
    shared: Option<Arc<Grants, Global>>,
    /// No rules, which stand where none are shared: so the first version takes no memory.
    none: Grants,
}

impl Model for SharedRules {
    ghost use Rattle.std.specs.{Prelude.{◌≡◌, []}, Arc.{arc_value}, Option.{option_map_or}};
    ghost use Rattle.grants.specs.Covers.{Rules};

    ghost Value = { Rules };

    ghost view = { λ s. option_map_or (λ rules. arc_value rules) s.shared s.none };

    ghost invariant = { λ s. s.none ≡ record { granted = []; denied = [] } };
}

impl SharedRules {
    ghost use Rattle.std.specs.Prelude.{◌≡◌, [], IfOk};

    /// No rules. They take no memory.
    pub(crate) fn new(alloc: Global) -> SharedRules
        ensures { result ≡ record { granted = []; denied = [] } }
    {
        SharedRules {
            shared: None,
            none: Grants::new(alloc),
        }
    }

    /// These rules, to be shared; the one error is want of memory.
    pub(crate) fn of(alloc: Global, grants: Grants) -> Result<SharedRules, AllocError>
        ensures { IfOk result (λ shared. shared ≡ grants) }
    {
        Ok(SharedRules {
            shared: Some(Arc::new(alloc, grants)?),
            none: Grants::new(alloc),
        })
    }

    /// The same rules once more, not copied. The one error is want of room to count one holder more.
    pub(crate) fn share(&self, alloc: Global) -> Result<SharedRules, AllocError>
        ensures { IfOk result (λ shared. shared ≡ self.now) }
    {
        let Some(grants) = &self.shared else {
            return Ok(SharedRules::new(alloc));
        };
        Ok(SharedRules {
            shared: Some(Arc::try_clone(grants)?),
            none: Grants::new(alloc),
        })
    }

    /// The rules.
    pub(crate) fn get(&self) -> &Grants
        ensures { result.now ≡ self.now }
    {
        match &self.shared {
            Some(grants) => grants,
            None => &self.none,
        }
    }
}
