//! Comparisons of arrays of booleans: the calls of [`crate::comparison`], under arrow2's module.
pub use crate::comparison::{
    eq, eq_and_validity, eq_scalar, eq_scalar_and_validity, gt, gt_eq, gt_eq_scalar, gt_scalar, lt,
    lt_eq, lt_eq_scalar, lt_scalar, neq, neq_and_validity, neq_scalar, neq_scalar_and_validity,
};
