ghost use Rattle.std.specs.Prelude.{◌≡◌};
ghost use Rattle.ppm_write.specs.Pictures.{header_text};

use fixed_text::FixedText;

/// The head of a picture's file.
pub type HeaderText = FixedText<32>;

/// Makes a text the head of a picture of so many columns and rows. The picture's file is a portable pixmap as Netpbm reads
/// it, of the kind `P6` and with the greatest value 255: the pixels follow the head row by row from the top, each as its
/// red, its green and its blue byte.
pub fn header(w: u32, h: u32, out: &mut HeaderText)
    ensures { out.new ≡ header_text w h }
{
    out.clear();
    out.push(b"P6\n");
    out.push_number(w);
    out.push(b" ");
    out.push_number(h);
    out.push(b"\n255\n");
}
