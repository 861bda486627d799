//! Aggregates. What each returns was worked out by hand.
mod group_items;
mod groups;
mod items;
mod numbers;
