//! Buffers of native values from the bytes of a file, of which there must be a whole number of values.
ghost use Rattle.std.specs.Prelude.{◌≡◌, ◌*◌, ◌%◌, length, map, IfErr, IfOk};
ghost use Rattle.std.specs.Simd.{first_chunks};
ghost use Rattle.arrow_types.specs.Types.{refusal};
ghost use Rattle.arrow_memory.specs.LeBytes.{bytes_refusal, values_of_bytes};

use crate::buffer::Buffer;
use arrow_types::error::Error;
use arrow_types::le_bytes::FromLeBytes;
use std::alloc::Global;

/// Writes over each value the value of as many bytes as one has.
fn write_values<T: FromLeBytes>(bytes: &[u8], values: &mut [T])
    requires { length values.old * T.SIZE ≡ length bytes.now }
    ensures { values.new ≡ map T.of_bytes (first_chunks T.SIZE (length values.old) bytes.now) }
{
    for i in 0..values.len() {
        let start = i * T::SIZE;
        values[i] = T::from_le_slice(&bytes[start..start + T::SIZE]);
    }
}

impl<T: FromLeBytes> Buffer<T> {
    /// Creates a buffer of the values whose bytes lie one after the other, each with the least
    /// significant byte first (Arrow columnar format, "Byte Order").
    ///
    /// # Errors
    /// - `OutOfSpec` if the number of bytes is not a multiple of the size of a value; this is
    ///   checked first.
    /// - `OutOfMemory` if an allocation fails.
    pub fn from_le_bytes(alloc: Global, bytes: &[u8]) -> Result<Self, Error>
        ensures whole { IfOk result (λ _. length bytes.now % T.SIZE ≡ 0) }
        ensures ok { IfOk result (λ buffer. buffer ≡ values_of_bytes T.SIZE T.of_bytes bytes.now) }
        ensures err { IfErr result (λ e. refusal e ≡ bytes_refusal T.SIZE (length bytes.now)) }
    {
        if bytes.len() % T::SIZE != 0 {
            return Err(Error::OutOfSpec(
                "the number of bytes must be a multiple of the size of a value",
            ));
        }
        let mut values = Vec::new(alloc);
        values.resize(bytes.len() / T::SIZE, T::default())?;
        write_values(bytes, values.as_mut_slice());
        Buffer::from_vec(values)
    }
}
