ghost use Rattle.std.specs.Prelude.{◌≡◌, [], map, IfOk, OnOk, OnErr, All};
ghost use Rattle.object_set.specs.Objects.{Parts, IsBody, IsComb, IsKept, member_names};
ghost use Rattle.object_set.specs.Keeping.{kept_after};
ghost use Rattle.object_set.specs.TextValues.{IsTextValue};
ghost use Rattle.object_set.specs.declared.kept.KeptAttr.{KeptAttr};
ghost use Rattle.object_set.specs.Renaming.{renamed_body, renamed_object, new_name};

use crate::keeping::kept_with;
use crate::kept::{KeptAttr, KeptAttrs, copy_of_kept};
use comb_tree::CombTree;
use item_list::Items;
use memory_core::Memory;
use name_core::Name;
use region_attr::Attr;
use solid_set::Solid;
use std::alloc::Global;
use std::marker::Model;

/// What an object is.
#[derive(Debug, Drop)]
pub enum Body {
    /// A solid, where it was made.
    Solid(Solid),
    /// A combination: a boolean tree over named members, and its attributes.
    Comb { attr: Attr, tree: CombTree },
}

impl Body {
    /// The same body again.
    pub fn copy(&self, alloc: Global) -> Result<Body, Memory>
        ensures { IfOk result (λ b. b ≡ self.now) }
    {
        match self {
            Body::Solid(solid) => Ok(Body::Solid(*solid)),
            Body::Comb { attr, tree } => {
                let tree = tree.copy(alloc)?;
                Ok(Body::Comb { attr: *attr, tree })
            }
        }
    }

    /// Gives each leaf of the old name the new one.
    fn rename_members(&mut self, old: &Name, new: &Name)
        ensures { self.new ≡ renamed_body old.now new.now self.old }
    {
        if let Body::Comb { tree, .. } = self {
            tree.rename(old, new);
        }
    }
}

/// An object of the directory. Contracts see its body and its kept attributes. The type keeps that the keys of the kept
/// attributes differ, that their values are such texts, that the numbers of its attributes are in their ranges, and that
/// the shift of each leaf of its tree has components of at most `COORD` in size.
#[derive(Debug, Drop)]
pub struct Object {
    body: Body,
    kept: KeptAttrs,
}

impl Model for Object {
    ghost use Rattle.std.specs.Coded.{codes};
    ghost use Rattle.object_set.specs.contracts.object.Body as bodies;
    ghost use Rattle.object_set.specs.Objects.{Parts, IsObject};

    ghost Value = { Parts };

    ghost coded = { Prim.hlevel (codes, bodies.the_row.coded) };

    ghost view = { λ s. record { body = s.body; kept = s.kept } };

    ghost invariant = { λ s. IsObject (record { body = s.body; kept = s.kept }) };
}

impl Object {
    /// The object of a solid, without kept attributes. It takes no memory.
    pub fn of_solid(alloc: Global, solid: Solid) -> Object
        ensures { result ≡ record { body = Body.Solid solid; kept = [] } }
    {
        Object {
            body: Body::Solid(solid),
            kept: Items::new(alloc),
        }
    }

    /// The combination of these attributes and this tree, without kept attributes. It takes no memory.
    pub fn of_comb(alloc: Global, attr: Attr, tree: CombTree) -> Object
        requires { IsComb attr tree }
        ensures { result ≡ record { body = Body.Comb attr tree; kept = [] } }
    {
        Object {
            body: Body::Comb { attr, tree },
            kept: Items::new(alloc),
        }
    }

    /// What the object is.
    pub fn body(&self) -> &Body
        ensures value { result.now ≡ self.now.body }
        ensures lawful { IsBody result.now }
    {
        &self.body
    }

    /// The kept attributes, in the order in which their keys came first.
    pub fn kept(&self) -> &[KeptAttr]
        ensures value { result.now ≡ self.now.kept }
        ensures lawful { IsKept result.now }
    {
        self.kept.items()
    }

    /// The same object again.
    pub fn copy(&self, alloc: Global) -> Result<Object, Memory>
        ensures { IfOk result (λ o. o ≡ self.now) }
    {
        let body = self.body.copy(alloc)?;
        let kept = copy_of_kept(alloc, self.kept.items())?;
        Ok(Object { body, kept })
    }

    /// The combination of these attributes and this tree, with the kept attributes of this object.
    pub fn with_comb(&self, alloc: Global, attr: Attr, tree: CombTree) -> Result<Object, Memory>
        requires { IsComb attr tree }
        ensures { IfOk result (λ o. o ≡ record { body = Body.Comb attr tree; kept = self.now.kept }) }
    {
        let kept = copy_of_kept(alloc, self.kept.items())?;
        Ok(Object {
            body: Body::Comb { attr, tree },
            kept,
        })
    }

    /// Keeps each pair in turn: a key that is there keeps its place and takes the new value, and another goes to the end.
    /// Where there is no memory all stays as it was.
    pub fn keep(&mut self, alloc: Global, pairs: &[KeptAttr]) -> Result<(), Memory>
        requires { All (λ (k : KeptAttr). IsTextValue k.value) pairs.now }
        ensures ok { OnOk result (self.new ≡ record self.old { kept = kept_after self.old.kept pairs.now }) }
        ensures err { OnErr result (self.new ≡ self.old) }
    {
        self.kept = kept_with(alloc, self.kept.items(), pairs)?;
        Ok(())
    }

    /// Gives each member of the old name the new one. A solid stays. It takes no memory.
    pub fn rename_members(&mut self, old: &Name, new: &Name)
        ensures object { self.new ≡ renamed_object old.now new.now self.old }
        ensures names { member_names self.new.body ≡ map (new_name old.now new.now) (member_names self.old.body) }
    {
        self.body.rename_members(old, new);
    }
}
