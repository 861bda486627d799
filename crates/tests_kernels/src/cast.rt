//! Conversions between integers, booleans, bytes and text. What each call makes was worked out by hand.
mod conversions;
mod decimals;
mod parsing;
mod retyped;
