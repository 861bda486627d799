//! What contracts see around items: the bytes before the first of them, and those after the last.
use std::marker::Model;

/// What contracts see around items of bytes: the bytes before the first of them and those after the
/// last. It names a type; no call makes one.
#[derive(Drop)]
pub struct BytesAround {
    lead: Vec<u8>,
    tail: Vec<u8>,
}

impl Model for BytesAround {
    ghost use Rattle.arrow_bytes.specs.Pieces.{Around};

    ghost Value = { Around };

    ghost view = { λ around. record { lead = around.lead.items; tail = around.tail.items } };
}
