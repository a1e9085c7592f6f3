//! Operations on values. It promises that each operation, comparison, function and LIKE answers exactly the
//! value that it means, and stops for overflow exactly where the result leaves 64 bits; and that the test by
//! which LIKE is computed holds exactly where its relation of pattern and text does.
//!
//! Its modules, in order: `kinds` (which operation, comparison or function it is), `operations` (arithmetic,
//! comparisons, truths and texts), `functions` (of one value), `like_operator` (LIKE), and `laws`.
mod functions;
mod kinds;
pub mod laws;
mod like_operator;
mod operations;

pub use functions::call;
pub use kinds::{Arithmetic, Comparison, Function};
pub use like_operator::like;
pub(crate) use operations::{integer_of, integers_compare};
pub use operations::{
    Stop, and3, arithmetic, comparison, concat, from_condition, is_null, is_same, null_if_equal,
    or3, truth,
};
