//! The law of scale: where all lengths are so many times as large, the end of the ray among them, positions are as many
//! times as far, and all else stays: which regions win, what is hit, how bright it is, and each pixel. So a model in tenths
//! of a millimetre means what it meant in millimetres.
#![tactic(auto)]

ghost use Rattle.scale_laws.specs.SceneLaws.{InstancesScale, ScenesScale, PicturesStay, PicturesStayInTenths, RaysScaleToTenths};
ghost use Rattle.scale_laws.specs.ModelLaws.{ModelsScale, RaysOfModelsScaleToTenths, PicturesOfModelsStay, ReportsOfModelsScaleToTenths, FaultsStay, EditsStay};

/// The law of scale for rays: the regions of a scene that is so many times as large win, overlap and are hit as before, and
/// each position is as many times as far. The function does nothing: its contract is the law.
pub fn scene_law()
    ensures instances { InstancesScale }
    ensures scenes { ScenesScale }
{}

/// The law of scale for pictures: every pixel of the larger view is that of the view. The function does nothing: its
/// contract is the law.
pub fn view_law()
    ensures { PicturesStay }
{}

/// The law of scale from millimetres to tenths: what a ray of today's length has of regions whose lengths are all ten times
/// as large is what a ray of a tenth of the length had of the regions, ten times as far, and the pixels are the same. The
/// function does nothing: its contract is the law.
pub fn tenths_law()
    ensures rays { RaysScaleToTenths }
    ensures pictures { PicturesStayInTenths }
{}

/// The law of scale for models: the names of a directory whose lengths are all so many times as large come to the same
/// regions, as many times as large; the directory is sound where the other one is, and takes and refuses the same edits; and
/// vertices have the same faults. From millimetres to tenths, what a ray of today's length has of these regions is what a ray
/// of a tenth of the length had, ten times as far; every picture has the same bytes, and every report the same pairs. The
/// function does nothing: its contract is the law.
pub fn model_law()
    ensures regions { ModelsScale }
    ensures rays { RaysOfModelsScaleToTenths }
    ensures pictures { PicturesOfModelsStay }
    ensures reports { ReportsOfModelsScaleToTenths }
    ensures faults { FaultsStay }
    ensures edits { EditsStay }
{}
