ghost use Rattle.std.specs.Prelude.{◌≡◌, ◌<◌, ◌+◌, ◌^◌, ◌++◌, ◌∷◌, [], length, Err, IfOk, OnOk, codes, decimal};
ghost use Rattle.surd_order.specs.Text.{position_text};
ghost use Rattle.transcript.specs.Lines.{Lacks};
ghost use Rattle.report_text.specs.Steps.{IsPushed};

use crate::fault::TextFault;
use fixed_text::FixedText;
use memory_core::Memory;
use surd_order::{Pos, PosText};
use transcript::Body;

/// The digits of a number.
type NumberText = FixedText<16>;

/// Puts the digits of a number at the end of a line.
pub(crate) fn push_number(line: &mut Vec<u8>, number: u32) -> Result<(), Memory>
    ensures { OnOk result (line.new.items ≡ line.old.items ++ decimal number) }
{
    let mut text = NumberText::new();
    text.push_number(number);
    line.extend_from_slice(text.bytes())?;
    Ok(())
}

/// Puts a blank and a position at the end of a line.
pub(crate) fn push_position(line: &mut Vec<u8>, place: &Pos) -> Result<(), Memory>
    ensures { OnOk result (line.new.items ≡ line.old.items ++ (codes " " ++ position_text place.now)) }
{
    let mut text = PosText::new();
    place.write_text(&mut text);
    line.extend_from_slice(b" ")?;
    line.extend_from_slice(text.bytes())?;
    Ok(())
}

/// Puts a line at the end of a body, where there is room for it.
pub(crate) fn push_line(body: &mut Body, line: &[u8], room: u64) -> Result<u64, TextFault>
    requires one_line { Lacks 10 line.now }
    requires few { length body.old + 1 < 2 ^ 32 }
    ensures ok { IfOk result (λ left. (body.new ≡ body.old ++ line.now ∷ []) × (left + (length line.now + 1) ≡ room)) }
    ensures room { result ≡ Err TextFault.Room → room < length line.now + 1 }
{
    let size = line.len() as u64 + 1;
    if room < size {
        return Err(TextFault::Room);
    }
    body.push_line(line)?;
    Ok(room - size)
}

/// Puts a line at the end of a body, where there is room for it. The clause is the one that several lines have.
pub(crate) fn push_one(body: &mut Body, line: &[u8], room: u64) -> Result<u64, TextFault>
    requires one_line { Lacks 10 line.now }
    requires few { length body.old + room < 2 ^ 31 }
    ensures { IsPushed result body.old body.new (line.now ∷ []) room }
{
    push_line(body, line, room)
}
