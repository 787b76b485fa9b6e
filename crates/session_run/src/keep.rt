//! The scenes that a session prepared lately, which are shot at again while the version stands.
ghost use Rattle.std.specs.Prelude.{◌≡◌, ℕ, true, Ok, Err, IfOk, IfErr, IfSome};
ghost use Rattle.std.specs.Arc.{arc_value};
ghost use Rattle.directory.specs.Walks.{Entries};
ghost use Rattle.scene_prep.specs.Outcomes.{IsSceneOf};
ghost use Rattle.session_run.specs.Kept.{IsCurrent, IsKeptOf, IsOf};

use directory::Directory;
use memory_core::Memory;
use name_core::Name;
use scene_prep::{Memo, PrepFault, prepare_again};
use shot_core::{Scene, indexed};
use std::alloc::Global;
use std::collections::HashMap;
use std::sync::Arc;
use std::vec::Vec;

/// How many small scenes a session keeps at most.
const MOST_SMALL: usize = 512;

/// How many regions, and how many solids, a small scene has at most.
const FEW: u32 = 16;

/// Whether a scene is a small one.
fn is_small(scene: &Scene) -> bool {
    scene.regions().len() <= FEW as usize && scene.instance(FEW).is_none()
}

/// A scene, the names that it is of, and the version of the directory from which it was prepared.
#[derive(Drop)]
pub(crate) struct KeptScene {
    version: u32,
    names: Vec<Name>,
    pub(crate) scene: Arc<Scene>,
    /// Whether it was looked at twice, and has an index of its instances where these are many.
    is_indexed: bool,
}

/// A scene that is kept, of these names and this version.
fn kept_scene(
    alloc: Global,
    version: u32,
    names: &[Name],
    scene: Scene,
) -> Result<KeptScene, Memory>
    ensures version { IfOk result (λ kept. kept.version ≡ version) }
    ensures names { IfOk result (λ kept. kept.names.items ≡ names.now) }
    ensures scene { IfOk result (λ kept. arc_value kept.scene ≡ scene) }
{
    let names = Vec::from_slice(alloc, names)?;
    let scene = Arc::new(alloc, scene)?;
    Ok(KeptScene {
        version,
        names,
        scene,
        is_indexed: false,
    })
}

/// The same scene with an index.
fn shared_index(alloc: Global, scene: &Scene) -> Result<Arc<Scene>, Memory>
    ensures { IfOk result (λ s. arc_value s ≡ scene.now) }
{
    let scene = indexed(alloc, scene)?;
    Ok(Arc::new(alloc, scene)?)
}

impl KeptScene {
    /// Whether the scene is of these names and was prepared at this version.
    fn is_of(&self, version: u32, names: &[Name]) -> bool
        ensures { result ≡ true → (directory : Entries) → IsOf version directory self.now → IsSceneOf (Ok (arc_value self.now.scene)) directory names.now }
    {
        self.version == version && self.names.as_slice() == names
    }

    /// The same scene for one more look, with an index. Where there is no memory for one it has none.
    fn looked_again(self, alloc: Global) -> KeptScene
        ensures version { result.version ≡ self.version }
        ensures names { result.names ≡ self.names }
        ensures scene { arc_value result.scene ≡ arc_value self.scene }
    {
        if self.is_indexed {
            return self;
        }
        match shared_index(alloc, &self.scene) {
            Ok(scene) => KeptScene {
                version: self.version,
                names: self.names,
                scene,
                is_indexed: true,
            },
            Err(_) => self,
        }
    }
}

/// The scenes that a session prepared lately: the last one that is large, and small ones by the first of their names. To
/// prepare a scene costs far more than a shot at it.
#[derive(Drop)]
pub struct Keep {
    large: Option<KeptScene>,
    small: HashMap<Name, KeptScene>,
    memo: Memo,
}

impl Keep {
    /// Nothing is kept. It takes no memory.
    pub fn new(alloc: Global) -> Keep
        ensures { (version : ℕ) (directory : Entries) → IsCurrent result version directory }
    {
        Keep {
            large: None,
            small: HashMap::new(alloc),
            memo: Memo::new(alloc),
        }
    }

    /// Takes the small scene that is kept under the first of the names.
    fn take_small(&mut self, names: &[Name]) -> Option<KeptScene>
        ensures taken { IfSome result (λ kept. (version : ℕ) (directory : Entries) → IsCurrent self.old version directory → IsOf version directory kept) }
        ensures rest { (version : ℕ) (directory : Entries) → IsCurrent self.old version directory → IsCurrent self.new version directory }
    {
        match names.first() {
            Some(first) => self.small.remove(first),
            None => None,
        }
    }

    /// Takes the large scene, where it is of these names and was prepared at this version.
    fn take_large(&mut self, version: u32, names: &[Name]) -> Option<KeptScene>
        ensures taken { IfSome result (λ kept. (directory : Entries) → IsCurrent self.old version directory → IsKeptOf kept version directory names.now) }
        ensures rest { (directory : Entries) → IsCurrent self.old version directory → IsCurrent self.new version directory }
    {
        match self.large.take() {
            Some(kept) => {
                if kept.is_of(version, names) {
                    return Some(kept);
                }
                self.large = Some(kept);
                None
            }
            None => None,
        }
    }

    /// Takes a kept scene that is of these names and was prepared at this version.
    fn take(&mut self, version: u32, names: &[Name]) -> Option<KeptScene>
        ensures taken { IfSome result (λ kept. (directory : Entries) → IsCurrent self.old version directory → IsKeptOf kept version directory names.now) }
        ensures rest { (directory : Entries) → IsCurrent self.old version directory → IsCurrent self.new version directory }
    {
        if let Some(kept) = self.take_small(names) {
            if kept.is_of(version, names) {
                return Some(kept);
            }
        }
        self.take_large(version, names)
    }

    /// Takes the scene of these names in a directory of this version: the one that is kept, or else one that is prepared.
    pub(crate) fn scene(
        &mut self,
        alloc: Global,
        version: u32,
        directory: &Directory,
        names: &[Name],
    ) -> Result<KeptScene, PrepFault>
        requires { IsCurrent self.old version directory.now.objects }
        ensures scene { IfOk result (λ kept. IsKeptOf kept version directory.now.objects names.now) }
        ensures fault { IfErr result (λ fault. IsSceneOf (Err fault) directory.now.objects names.now) }
        ensures rest { IsCurrent self.new version directory.now.objects }
    {
        if let Some(kept) = self.take(version, names) {
            return Ok(kept.looked_again(alloc));
        }
        let scene = prepare_again(alloc, directory, names, &mut self.memo)?;
        match kept_scene(alloc, version, names, scene) {
            Ok(kept) => Ok(kept),
            Err(_) => Err(PrepFault::Memory),
        }
    }

    /// Keeps a small scene. Where there is no room for one more, the others go.
    fn put_small(&mut self, first: Name, kept: KeptScene)
        ensures { (version : ℕ) (directory : Entries) → IsOf version directory kept → IsCurrent self.old version directory → IsCurrent self.new version directory }
    {
        if self.small.len() >= MOST_SMALL {
            self.small.clear();
        }
        let _before = self.small.insert(first, kept);
    }

    /// Keeps a scene: a large one in the place of the last, a small one beside the others.
    pub(crate) fn put(&mut self, kept: KeptScene)
        ensures { (version : ℕ) (directory : Entries) → IsOf version directory kept → IsCurrent self.old version directory → IsCurrent self.new version directory }
    {
        if is_small(&kept.scene) {
            if let Some(first) = kept.names.first() {
                let first = *first;
                self.put_small(first, kept);
            }
        } else {
            self.large = Some(kept);
        }
    }
}
