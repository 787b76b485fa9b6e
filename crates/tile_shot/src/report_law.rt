ghost use Rattle.tile_shot.specs.ReportLaws.{ReportsAreOfRegions, ReportsArePairs, PartsHaveFewerPairs, TilesAreParts, TilesAreApart, TilesFollow, TilesAreAll, TilesMakeReports, KeptHaveTheSameReport, CandidatesHaveTheSameReport};

use shot_core::kept_laws;

/// Laws of reports, and of how those of tiles make that of a view. Nothing is done: the contract is the laws.
pub fn report_laws()
    ensures regions { ReportsAreOfRegions }
    ensures pairs { ReportsArePairs }
    ensures fewer { PartsHaveFewerPairs }
    ensures tiles { TilesAreParts }
    ensures apart { TilesAreApart }
    ensures follow { TilesFollow }
    ensures all { TilesAreAll }
    ensures made { TilesMakeReports }
    ensures kept { KeptHaveTheSameReport }
    ensures candidates { CandidatesHaveTheSameReport }
{
    kept_laws();
}
