ghost use Rattle.std.specs.Prelude.{◌≡◌, [], IfOk};
ghost use Rattle.std.specs.Arc.{arc_value};
ghost use Rattle.shot_core.specs.Regions.{IsPathText};
ghost use Rattle.scene_prep.specs.Steps.{path_to, path_to_node};

use fixed_text::FixedText;
use item_list::Items;
use memory_core::Memory;
use name_core::Name;
use shot_core::PathText;
use std::alloc::Global;
use std::sync::Arc;

/// The path under which a list of names begins.
pub(crate) fn no_path(alloc: Global) -> Result<Arc<PathText>, Memory>
    ensures { IfOk result (λ p. arc_value p ≡ []) }
{
    Ok(Arc::new(alloc, Items::new(alloc))?)
}

/// The path that leads one name further.
pub(crate) fn path_to(alloc: Global, above: &PathText, name: &Name) -> Result<Arc<PathText>, Memory>
    requires { IsPathText above.now }
    ensures path { IfOk result (λ p. arc_value p ≡ path_to above.now name.now) }
    ensures line { IfOk result (λ p. IsPathText (arc_value p)) }
{
    let mut bytes = Vec::from_slice(alloc, above.items())?;
    bytes.push(b'/')?;
    bytes.extend_from_slice(name.bytes())?;
    Ok(Arc::new(alloc, Items::of_vec(bytes))?)
}

/// The path of the node of that number in the combination of a path.
pub(crate) fn path_of_node(
    alloc: Global,
    comb: &PathText,
    number: u32,
) -> Result<Arc<PathText>, Memory>
    requires { IsPathText comb.now }
    ensures path { IfOk result (λ p. arc_value p ≡ path_to_node comb.now number) }
    ensures line { IfOk result (λ p. IsPathText (arc_value p)) }
{
    let mut text: FixedText<16> = FixedText::new();
    text.push(b"#");
    text.push_number(number);
    let mut bytes = Vec::from_slice(alloc, comb.items())?;
    bytes.extend_from_slice(text.bytes())?;
    Ok(Arc::new(alloc, Items::of_vec(bytes))?)
}
