//! Buffers, offsets, and what is made of them and of bitmaps.
mod buffer;
mod le_bytes;
mod offset;
mod printing;
mod thaw;
mod zip_validity;
