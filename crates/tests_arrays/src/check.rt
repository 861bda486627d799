//! Checks of offsets, keys and text, and iterators over items.
mod bounds;
mod characters;
mod cost;
mod indexes;
mod judges;
mod places;
mod text;
mod values_iter;
