//! Laws of areas and of what pixels present, for those who prove with the calls.

ghost use Rattle.lattice_core.specs.declared.view.View.{View};
ghost use Rattle.area_tool.specs.Areas.{AreasSumUp};
ghost use Rattle.area_tool.specs.Numbers.{AreBlocks, IsMadeOfBlocks};
ghost use Rattle.area_tool.specs.Presented.{KeptPresentTheSame, IsMadeOfKeptTiles, PresentsPlacesOfRegions};

use shot_core::kept_laws;

/// The areas of all regions and the pixels that present none sum up to all pixels of a view. The function does nothing: its
/// contract is the law.
pub fn area_laws()
    ensures { AreasSumUp }
{}

/// Where all tiles of a view are put into a list, one after the other, it has the numbers of the view, row by row, and no other
/// list has them. The function does nothing: its contract is the laws.
pub fn tile_laws()
    ensures whole { (view : View) → AreBlocks view }
    ensures numbers { (view : View) → IsMadeOfBlocks view }
{}

/// The regions that are kept for a tile present on it what all regions do, and the list of these tiles is that of the view; no
/// pixel presents a place over all those of the regions, as `areas` wants it. The function does nothing: its contract is the
/// laws.
pub fn present_laws()
    ensures tiles { KeptPresentTheSame }
    ensures view { IsMadeOfKeptTiles }
    ensures places { PresentsPlacesOfRegions }
{
    kept_laws();
}
