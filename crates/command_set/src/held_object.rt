ghost use Rattle.std.specs.Prelude.{◌≡◌, IfOk};
ghost use Rattle.std.specs.Arc.{arc_value};

use memory_core::Memory;
use object_set::Object;
use std::alloc::Global;
use std::marker::Model;
use std::sync::Arc;

/// An object that is held apart, so that a command that has none stays small, and whoever puts it into a directory shares
/// it. Contracts see the object.
#[derive(Debug, Drop)]
pub struct HeldObject {
    object: Arc<Object>,
}

impl Model for HeldObject {
    ghost use Rattle.std.specs.Coded.{codes};
    ghost use Rattle.object_set.specs.contracts.object.Object as parts;
    ghost use Rattle.object_set.specs.Objects.{Parts};
    ghost use Rattle.std.specs.Arc.{arc_value};

    ghost Value = { Parts };

    ghost coded = { parts.the_row.coded };

    ghost view = { λ s. arc_value s.object };
}

impl HeldObject {
    /// Holds an object.
    pub fn new(alloc: Global, object: Object) -> Result<HeldObject, Memory>
        ensures { IfOk result (λ held. held ≡ object) }
    {
        let object = Arc::new(alloc, object)?;
        Ok(HeldObject { object })
    }

    /// Lends the object.
    pub fn object(&self) -> &Object
        ensures { result.now ≡ self.now }
    {
        &self.object
    }

    /// Another share of the object. An `Err` is want of memory.
    pub fn share(&self) -> Result<Arc<Object>, Memory>
        ensures { IfOk result (λ share. arc_value share ≡ self.now) }
    {
        Ok(self.object.clone()?)
    }
}
