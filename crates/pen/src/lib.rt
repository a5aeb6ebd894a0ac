// With what a write or a fill draws: a pen, and a stroke that borrows it with other numbers.
#![tactic(auto)]

mod pen_numbers;
mod stroke;

pub use pen_numbers::Pen;
pub use stroke::Stroke;
