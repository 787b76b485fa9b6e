ghost use Rattle.bool_weave.specs.Laws.{CutsAreThere, CutsAreAlone, CutsAreWithinTheRay, CoversByPlaces, NothingFromNothing};
ghost use Rattle.bool_weave.specs.Behind.{ClaimsAreBesidePlaces, NothingBeyondTheCuts, OwnInstancesTell, ClaimsBeginAtEnds};

/// Laws of the cuts of a ray. The function does nothing: its contract is the laws.
pub fn cut_laws()
    ensures there { CutsAreThere }
    ensures alone { CutsAreAlone }
    ensures within { CutsAreWithinTheRay }
{}

/// Laws of what is claimed. The function does nothing: its contract is the laws.
pub fn claim_laws()
    ensures covers { CoversByPlaces }
    ensures nothing { NothingFromNothing }
{}

/// Laws of what is claimed beside a place. The function does nothing: its contract is the laws.
pub fn place_laws()
    ensures beside { ClaimsAreBesidePlaces }
    ensures nothing { NothingBeyondTheCuts }
    ensures own { OwnInstancesTell }
    ensures ends { ClaimsBeginAtEnds }
{}
