//! What rows show of attributes, and of answers that are yes or no.

use case_text::Shown;
use region_attr::{Attr, Rgb};

/// Puts in `yes` or `no`.
pub fn put_truth(is_so: bool, out: &mut Shown) {
    out.put(if is_so { b"yes" } else { b"no" });
}

/// Puts in a word, a blank and a number.
pub fn put_counted(word: &[u8], number: u32, out: &mut Shown) {
    out.put(word);
    out.put_byte(b' ');
    out.put_number(number);
}

/// Puts in a word, a blank and a text.
pub fn put_named(word: &[u8], text: &[u8], out: &mut Shown) {
    out.put(word);
    out.put_byte(b' ');
    out.put(text);
}

/// Puts in the colour behind a blank, as ` 255/0/0`, or ` none`.
fn put_colour(colour: Option<Rgb>, out: &mut Shown) {
    match colour {
        Some(Rgb { r, g, b }) => {
            out.put_byte(b' ');
            out.put_number(r);
            out.put_byte(b'/');
            out.put_number(g);
            out.put_byte(b'/');
            out.put_number(b);
        }
        None => out.put(b" none"),
    }
}

/// Puts in attributes, as `region yes id 1000 air 0 los 100 mater 1 rgb none inherit no`.
pub fn put_attr(attr: &Attr, out: &mut Shown) {
    out.put(b"region ");
    put_truth(attr.region, out);
    put_counted(b" id", attr.id, out);
    put_counted(b" air", attr.air, out);
    put_counted(b" los", attr.los, out);
    put_counted(b" mater", attr.mater, out);
    out.put(b" rgb");
    put_colour(attr.rgb, out);
    out.put(b" inherit ");
    put_truth(attr.inherit, out);
}
