//! What the components of a name in an option name.

ghost use Rattle.std.specs.Prelude.{◌<◌, ◌≤◌, IfOk, length};
ghost use Rattle.proto_decl.specs.Names.{components_of};
ghost use Rattle.option_link.specs.OptionNames.{NamesParts};
ghost use Rattle.option_link.specs.Places.{IsDeclaredIn};
ghost use Rattle.option_link.specs.Found.{AreOuterEntitiesAt, HasParts, NamesOuterParts};

use crate::fronts::outer_entities;
use crate::members::full_name_of;
use crate::naming::Asked;
use crate::place::DeclaredPlace;
use basics::Sequence;
use proto_link::Entity;
use proto_options::OptionName;
use std::alloc::{AllocError, Global};

impl<'k, 'n, 'a, 't> Asked<'k, 'n, 'a, 't> {
    /// What the components of a name name whose last one names this. So many components of the full name of that come
    /// behind those that the name spells.
    pub(crate) fn parts(
        self,
        alloc: Global,
        name: &OptionName,
        behind: usize,
        place: DeclaredPlace,
    ) -> Result<Sequence<Entity>, AllocError>
        requires { HasParts self.files.names.now name.now behind place }
        ensures { IfOk result (λ parts. NamesParts self.entry.files.names.now name.now place behind parts) }
    {
        let mut parts = self.outer_parts(alloc, name, behind, place)?;
        parts.push(Entity::Declared(place.file, place.index))?;
        Ok(Sequence::from_vec(parts))
    }

    /// What the components but the last one name. One component has none around it, so nothing is looked up.
    fn outer_parts(
        self,
        alloc: Global,
        name: &OptionName,
        behind: usize,
        place: DeclaredPlace,
    ) -> Result<Vec<Entity>, AllocError>
        requires { HasParts self.files.names.now name.now behind place }
        ensures { IfOk result (λ parts. NamesOuterParts self.entry.files.names.now name.now place behind
            parts.items) }
    {
        let count = name.name.components.as_slice().len();
        if count == 1 {
            return Vec::with_capacity(alloc, 1);
        }
        match self.files.names.declaration_at(place) {
            Some(declared) => {
                let full_name = full_name_of(alloc, declared)?;
                let all = count + behind;
                let mut parts = self.parts_around(alloc, place.file, full_name.as_str(), all)?;
                parts.truncate(count - 1);
                Ok(parts)
            }
            None => Ok(Vec::new(alloc)),
        }
    }

    /// What the last so many components of a full name name that a file declares, but for the very last one.
    fn parts_around(
        self,
        alloc: Global,
        file: usize,
        name: &str,
        count: usize,
    ) -> Result<Vec<Entity>, AllocError>
        requires declared { IsDeclaredIn self.files.names.now file name.now }
        requires some { 0 < count }
        requires few { count ≤ length (components_of name.now) }
        ensures { IfOk result (λ parts. AreOuterEntitiesAt self.entry.files.names.now file name.now count
            parts.items) }
    {
        match self.files.names.linker().facts_of(file) {
            Some(facts) => outer_entities(alloc, self.files.names, file, facts, name, count),
            None => Ok(Vec::new(alloc)),
        }
    }
}
