//! What follows where sessions were answered at their own places of one history.
ghost use Rattle.session_merge.specs.Laws.{AreAllCalls, AreAllLanes, AreJoined, AreOneRun, AreOutcome, GoesOn, IsCounted, IsJoinedNext, IsKeptByVersion, StaysAnswered};

/// Sessions that were each answered at their own places of one history are one run of their scripts. What was answered
/// stays answered where the history goes on. Sessions were answered at such places, where each ran its script with a pass
/// of a table, and the passes were joined into one that has all entries. The function does nothing: its contract is the
/// law, for any rules.
pub fn merge_laws<D, L, C, F>()
    ensures stays { StaysAnswered D L C F }
    ensures goes_on { GoesOn D L C F }
    ensures one_run { AreOneRun D L C F }
    ensures outcome { AreOutcome D L C F }
    ensures counted { IsCounted D L C F }
    ensures kept { IsKeptByVersion D L C F }
    ensures next { IsJoinedNext D L C F }
    ensures joined { AreJoined D L C F }
    ensures calls { AreAllCalls D L C F }
    ensures lanes { AreAllLanes D L C F }
{}
