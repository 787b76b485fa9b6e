ghost use Rattle.std.specs.Prelude.{◌≡◌, ◌≤◌, ◌++◌, length, decimal};
ghost use Rattle.command_set.specs.Refusals.{refusal_text, shape_text, view_text};

use fixed_text::FixedText;
use lattice_core::ViewFault;
use name_core::Name;
use plane_geom::ShapeFault;

/// Why a command is refused. The first that holds is answered, in this order; `Memory` may stand in place of any other
/// answer.
#[derive(Clone, Copy, Debug, PartialEq, Eq)]
pub enum Refusal {
    /// The line is no command.
    Syntax,
    /// The word of this number, counted from 1, is the first that is no name.
    Name(u32),
    /// The word of this number, counted from 1, is the first that is no number, or no value of an attribute, in its range.
    Number(u32),
    /// A ray or a view is refused.
    View(ViewFault),
    /// A solid is refused.
    Shape(ShapeFault),
    /// An object of this name is there already.
    Exists(Name),
    /// No object of this name is there.
    Missing(Name),
    /// The object of this name is a solid, where a combination is wanted.
    NotComb(Name),
    /// No list gives the tree of the combination of this name.
    NotList(Name),
    /// The combination has no leaf of this name.
    Absent(Name),
    /// The entry of this name heads a product and would go, while a later entry of the product stays.
    Heads(Name),
    /// The tree would have this many leaves, over 4,096.
    Members(u32),
    /// A new object, and 65,535 are there.
    Full,
    /// The directory would have a cycle through this name.
    Cycle(Name),
    /// The directory would be this many combinations deep, over 16.
    Deep(u32),
    /// The names have this many instances, over 65,536.
    Instances(u32),
    /// The bodies and files of the session would pass 67,108,864 bytes.
    Quota,
    /// There was no memory.
    Memory,
}

/// The text of a refusal.
pub type RefusalText = FixedText<96>;

fn push_view(fault: ViewFault, out: &mut RefusalText)
    requires { length out.old ≤ 32 }
    ensures { out.new ≡ out.old ++ view_text fault }
{
    match fault {
        ViewFault::Pixels => out.push(b"pixels"),
        ViewFault::Side => out.push(b"side"),
        ViewFault::Cell => out.push(b"cell"),
        ViewFault::Direction => out.push(b"direction"),
        ViewFault::World => out.push(b"world"),
    }
}

fn push_shape(fault: ShapeFault, out: &mut RefusalText)
    requires { length out.old ≤ 32 }
    ensures { out.new ≡ out.old ++ shape_text fault }
{
    match fault {
        ShapeFault::Flat => out.push(b"flat"),
        ShapeFault::NotPlanar(face) => {
            out.push(b"planar ");
            out.push_number(face);
        }
        ShapeFault::NotConvex(face) => {
            out.push(b"convex ");
            out.push_number(face);
        }
        ShapeFault::Radius => out.push(b"radius"),
        ShapeFault::ZeroNormal => out.push(b"normal"),
        ShapeFault::Axis => out.push(b"axis"),
    }
}

/// Writes a word and a number in place of what `out` held.
fn write_number(word: &[u8], number: u32, out: &mut RefusalText)
    requires { length word.now ≤ 32 }
    ensures { out.new ≡ word.now ++ decimal number }
{
    out.clear();
    out.push(word);
    out.push_number(number);
}

/// Writes a word and a name in place of what `out` held.
fn write_name(word: &[u8], name: &Name, out: &mut RefusalText)
    requires { length word.now ≤ 32 }
    ensures { out.new ≡ word.now ++ name.now }
{
    out.clear();
    out.push(word);
    out.push(name.bytes());
}

/// Writes a word in place of what `out` held.
fn write_word(word: &[u8], out: &mut RefusalText)
    requires { length word.now ≤ 32 }
    ensures { out.new ≡ word.now }
{
    out.clear();
    out.push(word);
}

impl Refusal {
    /// Writes the text of the refusal in place of what `out` held.
    pub fn write_text(&self, out: &mut RefusalText)
        ensures { out.new ≡ refusal_text self.now }
    {
        match self {
            Refusal::Syntax => write_word(b"syntax", out),
            Refusal::Name(word) => write_number(b"name ", *word, out),
            Refusal::Number(word) => write_number(b"number ", *word, out),
            Refusal::View(fault) => {
                write_word(b"view ", out);
                push_view(*fault, out);
            }
            Refusal::Shape(fault) => {
                write_word(b"shape ", out);
                push_shape(*fault, out);
            }
            Refusal::Exists(name) => write_name(b"exists ", name, out),
            Refusal::Missing(name) => write_name(b"missing ", name, out),
            Refusal::NotComb(name) => write_name(b"not-comb ", name, out),
            Refusal::NotList(name) => write_name(b"not-list ", name, out),
            Refusal::Absent(name) => write_name(b"absent ", name, out),
            Refusal::Heads(name) => write_name(b"heads ", name, out),
            Refusal::Members(count) => write_number(b"members ", *count, out),
            Refusal::Full => write_word(b"full", out),
            Refusal::Cycle(name) => write_name(b"cycle ", name, out),
            Refusal::Deep(levels) => write_number(b"deep ", *levels, out),
            Refusal::Instances(size) => write_number(b"instances ", *size, out),
            Refusal::Quota => write_word(b"quota", out),
            Refusal::Memory => write_word(b"memory", out),
        }
    }
}
