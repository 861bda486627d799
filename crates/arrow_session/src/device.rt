//! Reads of a whole input and writes of a whole text, over devices that may fail.
ghost use Rattle.std.specs.Prelude.{◌≡◌, ◌<◌, ◌≤◌, IfOk, IsErrOf, IsFalse, OnErr, OnOk, length, take, vec_len};
ghost use Rattle.std.specs.Io.KnownBytes.{Appends, Keeps};
ghost use Rattle.arrow_session.specs.Counted.{Faulted, KeepsEnd, UnlessFaulted, fault_count, found_end, inside};
ghost use Rattle.arrow_session.specs.Device.{Takes, IsWhole, PutsFront};

use crate::counted::Counted;
use std::alloc::{AllocError, Global};
use std::io::{ErrorKind, Read, Write};

/// The number of bytes that are read at a time.
const PIECE: usize = 65536;

/// The device failed.
#[derive(Drop)]
pub(crate) struct DeviceFault;

/// Why reading stopped.
#[derive(Drop)]
pub(crate) enum Fault {
    /// The device failed.
    Device,
    /// An allocation failed.
    Memory,
}

impl From<AllocError> for Fault {
    ghost use Rattle.arrow_session.specs.declared.device.Fault.TheVariants.{Memory};

    ghost from_gives = { λ _ e. e ≡ Memory };

    fn from(_refused: AllocError) -> Fault {
        Fault::Memory
    }
}

/// Appends the bytes of one read, and returns whether the input is at its end. An interrupted read appends nothing.
fn read_piece<R: Read>(
    input: &mut Counted<R>,
    piece: &mut [u8],
    bytes: &mut Vec<u8>,
) -> Result<bool, Fault>
    requires { 0 < length piece.old }
    ensures taken { IfOk result
        (Takes (R.remaining (inside input.old)) (R.remaining (inside input.new)) bytes.old.items bytes.new.items) }
    ensures more { IfOk result (λ is_end.
        IsFalse is_end → UnlessFaulted input.old input.new (vec_len bytes.old < vec_len bytes.new)) }
    ensures never_less { fault_count input.old ≤ fault_count input.new }
    ensures before_end { IfOk result (λ is_end. IsFalse is_end → KeepsEnd input.old input.new) }
    ensures device { IsErrOf result Fault.Device → Faulted input.old input.new }
    ensures memory { IsErrOf result Fault.Memory → KeepsEnd input.old input.new }
{
    match input.read(piece) {
        Ok(0) => Ok(true),
        Ok(count) => {
            bytes.extend_from_slice(&piece[..count])?;
            Ok(false)
        }
        Err(error) if error.kind() == ErrorKind::Interrupted => Ok(false),
        Err(_) => Err(Fault::Device),
    }
}

/// Returns a buffer of `len` bytes.
fn room(alloc: Global, len: usize) -> Result<Vec<u8>, AllocError>
    ensures { IfOk result (λ piece. vec_len piece ≡ len) }
{
    vec![in alloc; 0; len]
}

/// Reads an input to its end. What earlier reads found of an end is forgotten.
///
/// # Errors
/// Returns `Fault::Device` if a read fails, and `Fault::Memory` if an allocation fails before the end is found.
pub(crate) fn read_all<R: Read>(alloc: Global, input: &mut Counted<R>) -> Result<Vec<u8>, Fault>
    ensures whole { IfOk result (λ bytes.
        IsWhole (R.remaining (inside input.old)) (R.remaining (inside input.new)) bytes.items) }
    ensures device { IsErrOf result Fault.Device → Faulted input.old input.new }
    ensures memory { IsErrOf result Fault.Memory → IsFalse (found_end input.new) }
{
    input.forget_end();
    let mut piece = room(alloc, PIECE)?;
    let mut bytes = Vec::new(alloc);
    for _ in 0..u64::MAX {
        if read_piece(input, &mut piece, &mut bytes)? {
            return Ok(bytes);
        }
    }
    Err(Fault::Device)
}

/// Writes a beginning of a text by one write, and returns its length. An interrupted write has length 0.
fn write_piece<W: Write>(output: &mut Counted<W>, text: &[u8]) -> Result<usize, DeviceFault>
    requires { 0 < length text.now }
    ensures within { IfOk result (λ count. count ≤ length text.now) }
    ensures taken { IfOk result (λ count.
        Appends (W.contents (inside output.old)) (W.contents (inside output.new)) (take count text.now)) }
    ensures more { IfOk result (λ count. UnlessFaulted output.old output.new (0 < count)) }
    ensures never_less { fault_count output.old ≤ fault_count output.new }
    ensures kept { OnErr result (Keeps (W.contents (inside output.old)) (W.contents (inside output.new))) }
    ensures device { OnErr result (Faulted output.old output.new) }
{
    match output.write(text) {
        Ok(0) => Err(DeviceFault),
        Ok(count) => Ok(count),
        Err(error) if error.kind() == ErrorKind::Interrupted => Ok(0),
        Err(_) => Err(DeviceFault),
    }
}

/// Writes a text.
///
/// # Errors
/// Returns `DeviceFault` if a write fails; a beginning of the text was then written.
fn write_all<W: Write>(output: &mut Counted<W>, text: &[u8]) -> Result<(), DeviceFault>
    ensures whole { OnOk result (Appends (W.contents (inside output.old)) (W.contents (inside output.new)) text.now) }
    ensures front { PutsFront (W.contents (inside output.old)) (W.contents (inside output.new)) text.now }
    ensures never_less { fault_count output.old ≤ fault_count output.new }
    ensures device { OnErr result (Faulted output.old output.new) }
{
    let mut rest = text;
    for _ in 0..u64::MAX {
        if rest.is_empty() {
            return Ok(());
        }
        let count = write_piece(output, rest)?;
        rest = &rest[count..];
    }
    Err(DeviceFault)
}

/// Writes a text and flushes it.
///
/// # Errors
/// Returns `DeviceFault` if a write or the flush fails; a beginning of the text was then written.
pub(crate) fn send<W: Write>(output: &mut Counted<W>, text: &[u8]) -> Result<(), DeviceFault>
    ensures whole { OnOk result (Appends (W.contents (inside output.old)) (W.contents (inside output.new)) text.now) }
    ensures front { PutsFront (W.contents (inside output.old)) (W.contents (inside output.new)) text.now }
    ensures device { OnErr result (Faulted output.old output.new) }
{
    write_all(output, text)?;
    match output.flush() {
        Ok(()) => Ok(()),
        Err(_) => Err(DeviceFault),
    }
}
