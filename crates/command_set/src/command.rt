use crate::checked_slant::CheckedSlant;
use crate::checked_view::CheckedView;
use crate::held_object::HeldObject;
use crate::kept_pairs::KeptPairs;
use crate::member_list::MemberList;
use crate::name_list::NameList;
use crate::near_placement::NearPlacement;
use crate::refusal::Refusal;
use crate::setting::Setting;
use crate::title_text::TitleText;
use crate::world_ray::WorldRay;
use name_core::Name;

/// A command that changes the directory.
#[derive(Debug, Drop)]
pub enum Edit {
    /// Appends a new object.
    Make {
        name: Name,
        object: HeldObject,
    },
    /// Makes a region of a list of members, or appends the list to a combination, which becomes a region.
    Region {
        name: Name,
        list: MemberList,
    },
    /// Makes a combination of a list of members, or appends the list to one.
    Group {
        name: Name,
        list: MemberList,
    },
    /// Removes all entries of these names from a combination.
    Remove {
        comb: Name,
        members: NameList,
    },
    /// Removes objects, and leaves the references to them.
    Kill {
        names: NameList,
    },
    /// Gives an object, and each member of its name, a new name.
    RenameAll {
        old: Name,
        new: Name,
    },
    /// Sets the placement of each leaf of a name.
    Place {
        comb: Name,
        member: Name,
        placement: NearPlacement,
    },
    /// Sets the title of the directory.
    Title {
        text: TitleText,
    },
    /// Keeps attributes of an object, which have no effect.
    Keep {
        name: Name,
        pairs: KeptPairs,
    },
    /// Sets one of the attributes of a combination.
    Set {
        name: Name,
        setting: Setting,
    },
}

/// A command that looks at the directory.
#[derive(Debug, Drop)]
pub enum Query {
    /// The written lines of objects.
    List { names: NameList },
    /// The names of all objects.
    Names,
    /// The listings of trees.
    Tree { names: NameList },
    /// Puts the whole directory as a text into a file.
    Save { file: Name },
    /// Shoots one ray at objects.
    Shot { ray: WorldRay, names: NameList },
    /// Shoots one ray in a lattice direction at objects.
    Slant { ray: CheckedSlant, names: NameList },
}

/// A command that shoots a ray for each pixel of a view.
#[derive(Debug, Drop)]
pub enum Shoot {
    /// Puts the picture of objects into a file.
    Picture {
        file: Name,
        view: CheckedView,
        names: NameList,
    },
    /// Reports which of the objects' regions overlap, and where.
    Check {
        view: CheckedView,
        names: NameList,
    },
    /// Counts the pixels that present each of the objects' regions.
    Area {
        view: CheckedView,
        names: NameList,
    },
    /// Puts the picture of the edges between the objects' regions into a file.
    Edge {
        file: Name,
        view: CheckedView,
        names: NameList,
    },
}

/// What a line of a script asks for.
#[derive(Debug, Drop)]
pub enum Command {
    /// A line that is refused as it stands.
    Bad(Refusal),
    Edit(Edit),
    Query(Query),
    Shoot(Shoot),
}
