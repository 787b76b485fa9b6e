ghost use Rattle.std.specs.Prelude.{◌≡◌, ◌<◌, ◌≤◌, ◌-◌, ◌^◌, [], ◌∷◌, vec_len, IfOk, OnOk, Some, All, ◌+◌, length};
ghost use Rattle.std.specs.Arc.{arc_value};
ghost use Rattle.tree_forms.specs.Trees.{Tree};
ghost use Rattle.comb_tree.specs.Nodes.{Member, comb_nodes};
ghost use Rattle.directory.specs.Walks.{Entries, IsSound};
ghost use Rattle.shot_core.specs.Regions.{IsPathText, IsScene};
ghost use Rattle.scene_prep.specs.Expanding.{expanded};
ghost use Rattle.scene_prep.specs.Regions.{solid_region, whole_region, node_region};
ghost use Rattle.scene_prep.specs.Sizes.{most_size, size_of_name, names_size};
ghost use Rattle.scene_prep.specs.Levels.{StandsWithin, nodes_size, IsShallow};
ghost use Rattle.scene_prep.specs.Walking.{content, settled_in, HasBody, HasTree, HasNode, AreBodies, Adds, HasComb, IsNearNode, IsNearLeaf, IsTaskOf, PushesParts, IsSoundTask, task_size, tasks_size, pending, ComesTo};
ghost use Rattle.scene_prep.specs.Scenes.{scene_of};
ghost use Rattle.object_set.specs.declared.object.Body.TheVariants as bodies;
ghost use Rattle.scene_prep.specs.declared.walk.Task.TheVariants as variant;

use crate::body::{Bodies, Shape};
use crate::context::Context;
use crate::memo::Memo;
use crate::part::{Part, parts_of};
use comb_tree::CombNode;
use directory::Directory;
use memory_core::Memory;
use name_core::Name;
use object_set::Body;
use region_attr::Attr;
use shot_core::{PathText, PrepRegion, SceneRegion};
use solid_set::Solid;
use std::alloc::Global;
use std::sync::Arc;

/// What a walk through names has come to.
#[derive(Drop)]
pub(crate) struct Walk {
    bodies: Bodies,
    memo: Memo,
    regions: Vec<SceneRegion>,
}

impl Walk {
    /// Nothing yet.
    fn new(alloc: Global, memo: Memo) -> Walk
        ensures regions { result.regions.items ≡ [] }
        ensures known { (directory : Entries) → AreBodies directory result.bodies }
    {
        Walk {
            bodies: Bodies::new(alloc),
            memo,
            regions: Vec::new(alloc),
        }
    }

    /// Puts a region at the end.
    fn push_region(&mut self, path: Arc<PathText>, body: Arc<PrepRegion>) -> Result<(), Memory>
        requires line { IsPathText (arc_value path) }
        requires room { vec_len self.old.regions < 65536 }
        ensures regions { IfOk result (λ _. Adds self.old self.new (content (arc_value path) (arc_value body) ∷ [])) }
        ensures bodies { self.new.bodies ≡ self.old.bodies }
    {
        let place = self.regions.len() as u32 + 1;
        self.regions.push(SceneRegion::new(place, path, body))?;
        Ok(())
    }

    /// Puts in the region of a solid.
    fn come_to_solid(
        &mut self,
        alloc: Global,
        directory: &Directory,
        name: &Name,
        solid: &Solid,
        context: &Context,
    ) -> Result<(), Memory>
        requires there { HasBody directory.now.objects name.now (bodies.Solid solid.now) }
        requires room { vec_len self.old.regions < 65536 }
        requires known { AreBodies directory.now.objects self.old.bodies }
        ensures regions { IfOk result (λ _. Adds self.old self.new (settled_in context.now (solid_region name.now solid.now) ∷ [])) }
        ensures known { OnOk result (AreBodies directory.now.objects self.new.bodies) }
    {
        let key = context.key(name, None);
        let memo = &mut self.memo;
        let body = self.bodies.of_solid(alloc, directory, memo, &key, solid)?;
        let path = context.path_to(alloc, name)?;
        self.push_region(path, body)
    }

    /// Puts in the region of a region combination, whose tree stands in the context.
    fn come_to_region(
        &mut self,
        alloc: Global,
        directory: &Directory,
        name: &Name,
        attr: &Attr,
        nodes: &[CombNode],
        context: &Context,
    ) -> Result<(), Memory>
        requires sound { IsSound directory.now.objects }
        requires there { HasTree directory.now.objects name.now attr.now nodes.now }
        requires deep { 0 < context.now.levels }
        requires within { All (StandsWithin directory.now.objects (context.now.levels - 1)) nodes.now }
        requires size { nodes_size directory.now.objects nodes.now ≤ most_size }
        requires room { vec_len self.old.regions < 65536 }
        requires known { AreBodies directory.now.objects self.old.bodies }
        ensures regions { IfOk result (λ _. (tree : Tree Member) → comb_nodes (Some tree) ≡ nodes.now → Adds self.old self.new (settled_in context.now (whole_region (expanded directory.now.objects) attr.now tree) ∷ [])) }
        ensures known { OnOk result (AreBodies directory.now.objects self.new.bodies) }
    {
        let shape = Shape {
            nodes,
            id: attr.id,
            air: attr.air,
            levels: context.levels_below(),
        };
        let key = context.key(name, None);
        let memo = &mut self.memo;
        let body = self.bodies.of_tree(alloc, directory, memo, &key, shape)?;
        let path = context.path()?;
        self.push_region(path, body)
    }

    /// Puts in the region of a node of a combination's tree.
    fn come_to_node(
        &mut self,
        alloc: Global,
        directory: &Directory,
        comb: &Name,
        node: Part<'_>,
        context: &Context,
    ) -> Result<(), Memory>
        requires sound { IsSound directory.now.objects }
        requires own { HasNode directory.now.objects comb.now node.number node.nodes.now }
        requires deep { 0 < context.now.levels }
        requires within { All (StandsWithin directory.now.objects (context.now.levels - 1)) node.nodes.now }
        requires size { nodes_size directory.now.objects node.nodes.now ≤ most_size }
        requires room { vec_len self.old.regions < 65536 }
        requires known { AreBodies directory.now.objects self.old.bodies }
        ensures regions { IfOk result (λ _. (tree : Tree Member) → comb_nodes (Some tree) ≡ node.entry.nodes.now → Adds self.old self.new (settled_in context.now (node_region (expanded directory.now.objects) node.entry.number tree) ∷ [])) }
        ensures known { OnOk result (AreBodies directory.now.objects self.new.bodies) }
    {
        let shape = Shape {
            nodes: node.nodes,
            id: 0,
            air: 0,
            levels: context.levels_below(),
        };
        let key = context.key(comb, Some(node.number));
        let memo = &mut self.memo;
        let body = self.bodies.of_tree(alloc, directory, memo, &key, shape)?;
        let path = context.path_of_node(alloc, node.number)?;
        self.push_region(path, body)
    }
}

/// What a walk has still to come to, and where it stands.
#[derive(Drop)]
enum Task<'a> {
    Name {
        name: Name,
        context: Context,
    },
    /// A node of a combination's tree that is no union.
    Node {
        comb: Name,
        node: Part<'a>,
        context: Context,
    },
}

/// The task of one of the parts that the tree of a combination unites.
fn task_of<'a>(comb: &Name, part: Part<'a>, context: &Context) -> Result<Task<'a>, Memory>
    requires deep { 0 < context.now.levels }
    requires leaf { part.number ≡ 0 → IsNearLeaf part.nodes.now }
    ensures { IfOk result (λ task. IsTaskOf comb.now context.now part.entry task) }
{
    if part.number > 0 {
        return Ok(Task::Node {
            comb: *comb,
            node: part,
            context: context.share()?,
        });
    }
    match &part.nodes[0] {
        CombNode::Leaf { name, placement } => Ok(Task::Name {
            name: *name,
            context: context.placed(placement)?,
        }),
        _ => unreachable!(),
    }
}

/// Puts the tasks of what the tree of a combination unites on the stack, the first of them on top.
fn push_parts<'a>(
    alloc: Global,
    tasks: &mut Vec<Task<'a>>,
    comb: &Name,
    nodes: &'a [CombNode],
    context: &Context,
) -> Result<(), Memory>
    requires tree { (t : Tree Member) × (comb_nodes (Some t) ≡ nodes.now) }
    requires few { length nodes.now < 2 ^ 32 }
    requires deep { 0 < context.now.levels }
    requires near { All IsNearNode nodes.now }
    ensures { IfOk result (λ _. PushesParts comb.now context.now nodes.now tasks.old.items tasks.new.items) }
{
    let parts = parts_of(alloc, nodes)?;
    for part in &parts {
        tasks.push(task_of(comb, *part, context)?)?;
    }
    Ok(())
}

/// Does what a combination asks for.
fn come_to_comb<'a>(
    alloc: Global,
    directory: &'a Directory,
    walk: &mut Walk,
    tasks: &mut Vec<Task<'a>>,
    name: &Name,
    attr: &Attr,
    nodes: &'a [CombNode],
    context: &Context,
) -> Result<(), Memory>
    requires sound { IsSound directory.now.objects }
    requires shallow { IsShallow directory.now.objects context.now.levels name.now }
    requires there { HasComb directory.now.objects name.now attr.now nodes.now }
    requires room { vec_len walk.old.regions + size_of_name directory.now.objects name.now ≤ most_size }
    requires known { AreBodies directory.now.objects walk.old.bodies }
    ensures regions { IfOk result (λ _. ComesTo directory.now.objects (variant.Name name.now context.now) walk.old walk.new tasks.old.items tasks.new.items) }
    ensures known { OnOk result (AreBodies directory.now.objects walk.new.bodies) }
{
    if nodes.is_empty() {
        return Ok(());
    }
    let within = context.within(alloc, name, attr)?;
    if attr.region {
        walk.come_to_region(alloc, directory, name, attr, nodes, &within)
    } else {
        push_parts(alloc, tasks, name, nodes, &within)
    }
}

/// Does what a name asks for that stands in the context.
fn come_to_name<'a>(
    alloc: Global,
    directory: &'a Directory,
    walk: &mut Walk,
    tasks: &mut Vec<Task<'a>>,
    name: &Name,
    context: &Context,
) -> Result<(), Memory>
    requires sound { IsSound directory.now.objects }
    requires shallow { IsShallow directory.now.objects context.now.levels name.now }
    requires room { vec_len walk.old.regions + size_of_name directory.now.objects name.now ≤ most_size }
    requires known { AreBodies directory.now.objects walk.old.bodies }
    ensures regions { IfOk result (λ _. ComesTo directory.now.objects (variant.Name name.now context.now) walk.old walk.new tasks.old.items tasks.new.items) }
    ensures known { OnOk result (AreBodies directory.now.objects walk.new.bodies) }
{
    match directory.get(name) {
        Some(object) => match object.body() {
            Body::Solid(solid) => walk.come_to_solid(alloc, directory, name, solid, context),
            Body::Comb { attr, tree } => {
                let nodes = tree.nodes();
                come_to_comb(alloc, directory, walk, tasks, name, attr, nodes, context)
            }
        },
        None => Ok(()),
    }
}

/// Does what a task asks for, and leaves on the stack what is then still to come.
fn come_to<'a>(
    alloc: Global,
    directory: &'a Directory,
    walk: &mut Walk,
    tasks: &mut Vec<Task<'a>>,
    task: Task<'a>,
) -> Result<(), Memory>
    requires sound { IsSound directory.now.objects }
    requires task { IsSoundTask directory.now.objects task }
    requires room { vec_len walk.old.regions + task_size directory.now.objects task ≤ most_size }
    requires known { AreBodies directory.now.objects walk.old.bodies }
    ensures regions { IfOk result (λ _. ComesTo directory.now.objects task.entry walk.old walk.new tasks.old.items tasks.new.items) }
    ensures known { OnOk result (AreBodies directory.now.objects walk.new.bodies) }
{
    match task {
        Task::Name { name, context } => {
            come_to_name(alloc, directory, walk, tasks, &name, &context)
        }
        Task::Node {
            comb,
            node,
            context,
        } => walk.come_to_node(alloc, directory, &comb, node, &context),
    }
}

/// Does what the tasks on the stack ask for, and whatever they leave there.
fn come_to_all<'a>(
    alloc: Global,
    directory: &'a Directory,
    walk: &mut Walk,
    tasks: &mut Vec<Task<'a>>,
) -> Result<(), Memory>
    requires sound { IsSound directory.now.objects }
    requires tasks { All (IsSoundTask directory.now.objects) tasks.old.items }
    requires room { vec_len walk.old.regions + tasks_size directory.now.objects tasks.old.items ≤ most_size }
    requires known { AreBodies directory.now.objects walk.old.bodies }
    ensures regions { IfOk result (λ _. Adds walk.old walk.new (pending directory.now.objects tasks.old.items)) }
    ensures none { OnOk result (tasks.new.items ≡ []) }
    ensures known { OnOk result (AreBodies directory.now.objects walk.new.bodies) }
{
    while let Some(task) = tasks.pop() {
        come_to(alloc, directory, walk, tasks, task)?;
    }
    Ok(())
}

/// The regions of a list of names, in their order, with places from 1.
pub(crate) fn regions_of(
    alloc: Global,
    directory: &Directory,
    names: &[Name],
    memo: Memo,
) -> Result<(Vec<SceneRegion>, Memo), Memory>
    requires { names_size directory.now.objects names.now ≤ most_size }
    ensures regions { IfOk result (λ made. made.0.items ≡ scene_of directory.now.objects names.now) }
    ensures sound { IfOk result (λ made. IsScene made.0.items) }
{
    let _count = directory.len();
    let top = Context::top(alloc)?;
    let mut walk = Walk::new(alloc, memo);
    let mut tasks = Vec::new(alloc);
    for name in names {
        tasks.push(Task::Name {
            name: *name,
            context: top.share()?,
        })?;
        come_to_all(alloc, directory, &mut walk, &mut tasks)?;
    }
    let Walk { regions, memo, .. } = walk;
    Ok((regions, memo))
}
