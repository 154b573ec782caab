//! Profiles in the order of their faults: those of `default` come before those of all others.
ghost use Rattle.std.specs.Prelude.{◌≡◌, ◌++◌, ◌∷◌, [], OnOk, IfOk, if◌then◌else◌};
ghost use Rattle.nextest_inheritance.specs.Names.{default_first, is_default};
ghost use Rattle.nextest_rules.specs.View.{order_view, profiles_view};

use crate::overrides::CompiledProfile;
use nextest_engines::{Filters, Specs};
use nextest_inheritance::DEFAULT_PROFILE;
use std::alloc::{AllocError, Global};
use std::collections::BTreeMap;

/// What was found in profiles, that of `default` apart.
#[derive(Drop)]
pub(crate) struct DefaultFirst<T: Drop> {
    default: Vec<T>,
    others: Vec<T>,
}

impl<T: Drop> DefaultFirst<T> {
    /// Nothing yet.
    pub(crate) fn new(alloc: Global) -> DefaultFirst<T>
        ensures default { result.default.items ≡ [] }
        ensures others { result.others.items ≡ [] }
    {
        DefaultFirst {
            default: Vec::new(alloc),
            others: Vec::new(alloc),
        }
    }

    /// Adds what was found in one profile.
    pub(crate) fn add(&mut self, profile: &str, found: Vec<T>) -> Result<(), AllocError>
        ensures default { OnOk result (self.new.default.items ≡ self.old.default.items
            ++ (if is_default profile.now then found.items else [])) }
        ensures others { OnOk result (self.new.others.items ≡ self.old.others.items
            ++ (if is_default profile.now then [] else found.items)) }
    {
        let mut found = found;
        if profile == DEFAULT_PROFILE {
            self.default.append(&mut found)
        } else {
            self.others.append(&mut found)
        }
    }

    /// Adds one thing that was found in a profile.
    pub(crate) fn push(&mut self, profile: &str, item: T) -> Result<(), AllocError>
        ensures default { OnOk result (self.new.default.items ≡ self.old.default.items
            ++ (if is_default profile.now then item ∷ [] else [])) }
        ensures others { OnOk result (self.new.others.items ≡ self.old.others.items
            ++ (if is_default profile.now then [] else item ∷ [])) }
    {
        if profile == DEFAULT_PROFILE {
            self.default.push(item)?;
        } else {
            self.others.push(item)?;
        }
        Ok(())
    }

    /// All that was found: in `default`, and then in the others.
    pub(crate) fn into_vec(self) -> Result<Vec<T>, AllocError>
        ensures { IfOk result (λ all. all.items ≡ self.default.items ++ self.others.items) }
    {
        let DefaultFirst {
            mut default,
            mut others,
        } = self;
        default.append(&mut others)?;
        Ok(default)
    }
}

/// A profile with its name.
pub(crate) type NamedProfile<'a, F, S> = (&'a str, &'a CompiledProfile<F, S>);

/// Profiles in the order of their faults: `default` first, the others by name.
pub(crate) fn default_first<'a, F: Filters, S: Specs>(
    alloc: Global,
    profiles: &'a BTreeMap<String, CompiledProfile<F, S>>,
) -> Result<Vec<NamedProfile<'a, F, S>>, AllocError>
    ensures { IfOk result (λ order. order_view F.meaning S.spec_meaning order.items
        ≡ default_first (profiles_view F.meaning S.spec_meaning profiles.now.entries)) }
{
    let mut order = DefaultFirst::new(alloc);
    for (name, profile) in profiles.iter() {
        order.push(name.as_str(), (name.as_str(), profile))?;
    }
    order.into_vec()
}
