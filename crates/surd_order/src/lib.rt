//! Positions on a ray: fractions, and sums of a whole number and a square root, in their exact order.
#![tactic(auto)]

mod laws;
mod order;
mod position;
mod range;
mod text;

pub use laws::{order_laws, place_order_laws, product_laws};
pub use order::{cmp_fractions, cmp_root, cmp_surds, product, scaled_square};
pub use position::{Pos, Seg};
pub use range::{OVER_LIMIT, SQUARE_LIMIT, UNDER_LIMIT, WHOLE_LIMIT, limit_laws};
pub use text::PosText;
