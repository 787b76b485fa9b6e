//! Laws of views: on a ray of a tile, the regions that are kept for it have the partitions that all regions have, and pixels and
//! reports tell what lies at the points of their rays.
#![tactic(auto)]

ghost use Rattle.view_laws.specs.Pruning.{KeptHaveTheSamePartitions, PartitionsWithoutTheRest};
ghost use Rattle.view_laws.specs.PixelPoints.{PixelsTellPoints};
ghost use Rattle.view_laws.specs.ReportPoints.{ReportsTellPoints};

/// Regions that hold at no point of a ray, hit places aside, may be left out, and the partitions of the ray are the same, by
/// the places of their regions, with the solid, the face and the level of what each hits: of all regions whose places rise and
/// whose leaves stand for their solids. So the regions that are kept for a tile have on each ray of the tile the partitions that
/// all regions have, where these are of placed solids with their boxes and the view has no fault. The function does nothing: its
/// contract is the law.
pub fn pruning_laws()
    ensures left_out { PartitionsWithoutTheRest }
    ensures kept { KeptHaveTheSamePartitions }
{}

/// A pixel has the colour of the region without air that lies first on its ray, at the level of the first solid, by the order of
/// regions and then of their solids, of all that have an end there and whose region begins or ceases to hold there: that of the
/// face which it has there, or 255 where the ray begins inside of it. It is black where no region without air holds. No other
/// colour is so. A report has exactly the pairs of regions without air that both hold at one fraction of some ray, each once and
/// in order, with the number of these rays, the first of them, and between which ends they first do on it. No other list is so.
/// Hit places are set aside, but for the level. All this is so of regions whose places rise and whose leaves stand for their
/// solids. The function does nothing: its contract is the law.
pub fn view_point_laws()
    ensures pixels { PixelsTellPoints }
    ensures reports { ReportsTellPoints }
{}
