//! Laws of answers: what the files of pictures and the lines of overlap checks and areas tell of the points of their rays.
#![tactic(auto)]

ghost use Rattle.answer_laws.specs.ViewAnswers.{ViewsAreTrue};

/// In any state, and so at each place of a run: the file that an accepted `rt` puts has the name that is asked for, and is a picture of
/// its view in which the pixel in each column and row is true of the points of its ray and of the regions of its names; the lines of
/// an accepted `rtcheck` are those of a report that is true of the points of the rays of its view; those of an accepted `rtarea` tell of
/// each region on how many rays it lies first of those without air; and the file that an accepted `rtedge` puts has the name that is
/// asked for, and is white at each pixel beside or above one on whose ray another region lies first, and black at the others, and its
/// line tells how many are white. No other lines and no other bytes are so. Hit places are set aside, but for the level of a pixel.
/// The function does nothing: its contract is the law.
pub fn view_answer_law()
    ensures { ViewsAreTrue }
{}
