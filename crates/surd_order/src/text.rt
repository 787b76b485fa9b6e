ghost use Rattle.std.specs.Prelude.{◌≡◌};
ghost use Rattle.surd_order.specs.Text.{position_text, sign_text};

use crate::Pos;
use fixed_text::FixedText;

/// The text of a position: at most 81 bytes.
pub type PosText = FixedText<96>;

fn sign_of(plus: bool) -> &'static [u8]
    ensures { result.now ≡ sign_text plus }
{
    if plus { b"+" } else { b"-" }
}

impl Pos {
    /// Replaces what `out` held by the position's text: `5`, `7/2`, `10-sqrt(23)`, `0+sqrt(2)`.
    pub fn write_text(&self, out: &mut PosText)
        ensures { out.new ≡ position_text self.now }
    {
        out.clear();
        match *self {
            Pos::Frac { p, q } => {
                out.push_number(p);
                if q != 1 {
                    out.push(b"/");
                    out.push_number(q);
                }
            }
            Pos::Surd { a, plus, k } => {
                out.push_number(a);
                out.push(sign_of(plus));
                out.push(b"sqrt(");
                out.push_number(k);
                out.push(b")");
            }
        }
    }
}
