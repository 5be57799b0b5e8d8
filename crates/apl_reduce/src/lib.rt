//! Reduction along an axis, outer and inner products, decode and encode.
//!
//! They are those of the APL\360 User's Manual (1968), over whole numbers of 64 bits.
//!
//! Below it: `apl_scalar` for the functions, `apl_summary`, whose summaries let workers share a fold, `apl_pool`, which fills results,
//! and `apl_answer` for the rows.
//! Begin with `specs/Folding.antt` and `specs/Reducing.antt`, and then `reducing.rt`.
#![tactic(auto)]

mod axis_items;
mod bit_folds;
mod carry_divisor;
mod carrying;
mod columns;
mod conformability;
mod decoding;
mod digit_laws;
mod dyadic;
mod encoding;
mod exact_folds;
mod extreme_folds;
mod foldable;
mod folded_rows;
mod folding;
mod four;
mod halves;
mod inner_products;
mod inner_runs;
mod item_rows;
mod item_runs;
mod items;
mod laws;
mod layouts;
mod line_folds;
mod line_rows;
mod magnitudes;
mod narrow_products;
mod near_products;
mod near_rows;
mod near_sums;
mod ones;
mod outer_products;
mod product_items;
mod product_rows;
mod product_sums;
mod quotient;
mod range;
mod reducing;
mod run_folds;
mod shapes;
mod sharing;
mod sign_folds;
mod stretch_sums;
mod sums;
mod truth_folds;

pub use decoding::decode;
pub use digit_laws::{digits_are_the_only_ones, value_is_sum_of_place_values};
pub use encoding::encode;
pub use exact_folds::{exact_folds_decide, limits_are_answered};
pub use inner_products::inner;
pub use laws::{partial_results_decide, reduced_answers_are_within_limits};
pub use outer_products::outer;
pub use reducing::reduce;
