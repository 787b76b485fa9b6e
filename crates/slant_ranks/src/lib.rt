//! Laws of slanted rays, which go along a whole vector: their partitions, whose places are divided by whole numbers, are told by
//! ranks, over which a plain ray is woven, claimed and settled.
#![tactic(auto)]

ghost use Rattle.slant_ranks.specs.Laws.{SlantsAreToldByRanks, SlantsTellPlaces, PlainRaysAreSlants, PlainRaysHaveSlantParts};

/// The segments of a slanted ray may be woven, claimed and settled with their ends' ranks in the place of their ends, and what
/// comes of that tells the parts of the ray; and these tell which region lies at its places. The function does nothing: its
/// contract is the laws.
pub fn slant_law()
    ensures ranks { SlantsAreToldByRanks }
    ensures places { SlantsTellPlaces }
{}

/// With the segments of a plain ray, which goes along an axis, a slanted ray has its partitions as parts. The function does
/// nothing: its contract is the laws.
pub fn axis_law()
    ensures rows { PlainRaysAreSlants }
    ensures parts { PlainRaysHaveSlantParts }
{}
