//! Stored values, of which columns are made: the traits that another kind of stored values implements.
ghost use Rattle.std.specs.Prelude.{refl, slice_set, replicate, ◌<◌, IfOk, ◌≡◌, ℕ, ◌+◌, ◌-◌, ◌≤◌, List, Bool};
ghost use Rattle.std.specs.Prelude.{false, [], ◌∷◌, ◌++◌, length, take, drop, OnOk, IsOk};
ghost use Rattle.arrow_types.specs.Failures.{OnlyOutOfMemory, OutOfMemoryKeeps};
ghost use Rattle.arrow_column.specs.Growth.{StoredGrow, StoredGrowBy, StoredKept, StoredJoin, AroundCutTwice};
ghost use Rattle.arrow_memory.specs.Changes.{cut_of};

use arrow_memory::bitmap::{Bitmap, MutableBitmap};
use arrow_memory::buffer::Buffer;
use arrow_types::error::Error;
use arrow_types::native_type::NativeType;
use std::alloc::Global;

/// Stored values, those of null slots included.
pub trait StoredValues: Drop {
    /// What contracts see of a stored value.
    type Stored;

    /// What contracts see of what lies around the stored values.
    type Around;

    /// The stored values in order.
    ghost stored: { Self → List Self.Stored };

    /// What lies around them.
    ghost around: { Self → Self.Around };

    /// Returns the number of stored values.
    fn count(&self) -> usize
        ensures { result ≡ length (stored self.now) };

    /// Returns a copy, which shares the values if they are those of an array.
    ///
    /// # Errors
    /// `OutOfMemory` if an allocation fails or the number of owners would overflow.
    fn try_clone(&self) -> Result<Self, Error>
        ensures stored { IfOk result (λ copy. stored copy ≡ stored self.now) }
        ensures around { IfOk result (λ copy. around copy ≡ around self.now) }
        ensures err { OnlyOutOfMemory result };
}

/// The stored values of an array.
pub trait Values: StoredValues {
    /// What lies around a cut of the stored values, from a place on.
    ghost cut_around: { Self.Around → List Self.Stored → ℕ → ℕ → Self.Around };

    /// Keeps only the `len` values from `offset` on.
    fn cut(&mut self, offset: usize, len: usize)
        requires { offset + len ≤ length (Self.stored self.old) }
        ensures stored { Self.stored self.new ≡ take len (drop offset (Self.stored self.old)) }
        ensures around { Self.around self.new
            ≡ cut_around (Self.around self.old) (Self.stored self.old) offset len };

    /// A cut of a cut has around it what one cut has.
    ghost cut_twice: { AroundCutTwice cut_around };
}

impl<T: Drop> StoredValues for Buffer<T> {
    type Stored = T;

    type Around = ();

    ghost stored = { λ buffer. buffer };

    ghost around = { λ _. tt };

    #[inline(always)]
    fn count(&self) -> usize {
        self.len()
    }

    #[inline(always)]
    fn try_clone(&self) -> Result<Self, Error> {
        self.clone()
    }
}

impl<T: Drop> Values for Buffer<T> {
    ghost cut_around = { λ around _ _ _. around };

    #[inline(always)]
    fn cut(&mut self, offset: usize, len: usize) {
        self.slice(offset, len);
    }

    ghost cut_twice = { λ before values a n b m within. refl };
}

impl StoredValues for Bitmap {
    type Stored = bool;

    type Around = ();

    ghost stored = { λ bitmap. bitmap };

    ghost around = { λ _. tt };

    #[inline(always)]
    fn count(&self) -> usize {
        self.len()
    }

    #[inline(always)]
    fn try_clone(&self) -> Result<Self, Error> {
        self.clone()
    }
}

impl Values for Bitmap {
    ghost cut_around = { λ around _ _ _. around };

    #[inline(always)]
    fn cut(&mut self, offset: usize, len: usize) {
        self.slice(offset, len);
    }

    ghost cut_twice = { λ before values a n b m within. refl };
}

/// The stored values of a builder.
pub trait MutableValues: StoredValues {
    /// The value that a null stores.
    ghost default: { Self.Stored };

    /// Returns the allocator of the values, which contracts do not see.
    fn allocated_by(&self) -> Global;

    /// Appends the value that a null stores.
    ///
    /// # Errors
    /// `OutOfMemory` if an allocation fails; the values are then unchanged.
    fn push_default(&mut self) -> Result<(), Error>
        ensures ok { OnOk result (Self.stored self.new ≡ Self.stored self.old ++ default ∷ []) }
        ensures around { Self.around self.new ≡ Self.around self.old }
        ensures err { OutOfMemoryKeeps result (Self.stored self.old) (Self.stored self.new) };

    /// Keeps only the first `len` values.
    fn keep_first(&mut self, len: usize)
        requires { len ≤ length (Self.stored self.old) }
        ensures stored { Self.stored self.new ≡ take len (Self.stored self.old) }
        ensures around { Self.around self.new ≡ Self.around self.old };

    /// Removes the last value.
    fn drop_last(&mut self)
        requires { 0 < length (Self.stored self.old) }
        ensures stored { Self.stored self.new ≡ take (length (Self.stored self.old) - 1) (Self.stored self.old) }
        ensures around { Self.around self.new ≡ Self.around self.old };

    /// Whether these values followed by others would overflow the values' type.
    ghost join_overflows: { Self.Around → List Self.Stored → List Self.Stored → Bool };

    /// Appends other values.
    ///
    /// # Errors
    /// - `Overflow` if the values would overflow their type; this is checked first.
    /// - `OutOfMemory` if an allocation fails.
    ///
    /// The values are unchanged on an error.
    fn append(&mut self, other: &Self) -> Result<(), Error>
        ensures ok { StoredJoin Self.stored Self.around join_overflows result self.old self.new (Self.stored other.now) }
        ensures around { Self.around self.new ≡ Self.around self.old }
        ensures err { StoredKept Self.stored Self.around join_overflows result self.old self.new (Self.stored other.now) };

    /// Reserves room for at least `additional` more values.
    ///
    /// # Errors
    /// `OutOfMemory` if an allocation fails.
    fn make_room(&mut self, additional: usize) -> Result<(), Error>
        ensures stored { Self.stored self.new ≡ Self.stored self.old }
        ensures around { Self.around self.new ≡ Self.around self.old }
        ensures err { OnlyOutOfMemory result };

    /// Gives unused room back to the allocator, if it takes it.
    ///
    /// # Errors
    /// Never: if the allocator refuses a smaller allocation, the room stays.
    fn drop_room(&mut self) -> Result<(), Error>
        ensures stored { Self.stored self.new ≡ Self.stored self.old }
        ensures around { Self.around self.new ≡ Self.around self.old }
        ensures ok { IsOk result };
}

/// Values to which one value can be appended.
pub trait PushValue<X>: MutableValues {
    /// The stored value of what is appended.
    ghost shown: { X → Self.Stored };

    /// Whether the value would overflow the values' type.
    ghost overflows: { Self.Around → List Self.Stored → X → Bool };

    /// Appends a value.
    ///
    /// # Errors
    /// - `Overflow` if the value would overflow the values' type; this is checked first.
    /// - `OutOfMemory` if an allocation fails.
    ///
    /// The values are unchanged on an error.
    fn push_value(&mut self, value: X) -> Result<(), Error>
        ensures ok { StoredGrow Self.stored Self.around overflows result self.old self.new value (shown value ∷ []) }
        ensures around { Self.around self.new ≡ Self.around self.old }
        ensures err { StoredKept Self.stored Self.around overflows result self.old self.new value };
}

/// Values to which many values can be appended at once.
pub trait Grow<X>: MutableValues {
    /// The stored values of what is appended.
    ghost given: { X → List Self.Stored };

    /// Whether the values would overflow their type.
    ghost overgrows: { Self.Around → List Self.Stored → X → Bool };

    /// Appends values and returns their number.
    ///
    /// # Errors
    /// - `Overflow` if the values would overflow their type; this is checked first.
    /// - `OutOfMemory` if an allocation fails.
    ///
    /// The values are unchanged on an error.
    fn grow(&mut self, values: X) -> Result<usize, Error>
        ensures ok { StoredGrowBy Self.stored Self.around overgrows result self.old self.new values (given values) }
        ensures around { Self.around self.new ≡ Self.around self.old }
        ensures err { StoredKept Self.stored Self.around overgrows result self.old self.new values };
}

/// Values to which a range of those of an array can be appended.
pub trait GrowFrom<F: Values<Stored = Self::Stored>>: MutableValues {
    /// Appends the `len` values of an array from `offset` on.
    ///
    /// # Errors
    /// As [`MutableValues::append`].
    fn grow_from(&mut self, other: &F, offset: usize, len: usize) -> Result<(), Error>
        requires { offset + len ≤ length (F.stored other.now) }
        ensures ok { StoredJoin Self.stored Self.around Self.join_overflows result self.old self.new
            (cut_of offset len (F.stored other.now)) }
        ensures around { Self.around self.new ≡ Self.around self.old }
        ensures err { StoredKept Self.stored Self.around Self.join_overflows result self.old self.new
            (cut_of offset len (F.stored other.now)) };
}

impl<T: NativeType> StoredValues for Vec<T> {
    type Stored = T;

    type Around = ();

    ghost stored = { λ values. values.items };

    ghost around = { λ _. tt };

    #[inline(always)]
    fn count(&self) -> usize {
        self.len()
    }

    #[inline(always)]
    fn try_clone(&self) -> Result<Vec<T>, Error> {
        let mut copy = Vec::new(*self.allocator());
        copy.extend_from_slice(self)?;
        Ok(copy)
    }
}

impl<T: NativeType> MutableValues for Vec<T> {
    ghost default = { T.zero };

    #[inline(always)]
    fn allocated_by(&self) -> Global {
        *self.allocator()
    }

    #[inline(always)]
    fn push_default(&mut self) -> Result<(), Error> {
        Ok(self.push(T::default())?)
    }

    #[inline(always)]
    fn keep_first(&mut self, len: usize) {
        self.truncate(len);
    }

    #[inline(always)]
    fn drop_last(&mut self) {
        let last = self.len() - 1;
        // A store to the slot keeps the compiler from loading a popped value behind a branch on its mark, which would
        // mispredict at nulls.
        self[last] = T::default();
        self.truncate(last);
    }

    ghost join_overflows = { λ _ _ _. false };

    #[inline(always)]
    fn append(&mut self, other: &Vec<T>) -> Result<(), Error> {
        Ok(self.extend_from_slice(other)?)
    }

    #[inline(always)]
    fn make_room(&mut self, additional: usize) -> Result<(), Error> {
        Ok(self.reserve(additional)?)
    }

    #[inline(always)]
    fn drop_room(&mut self) -> Result<(), Error> {
        self.shrink_to_fit();
        Ok(())
    }
}

impl<T: NativeType> PushValue<T> for Vec<T> {
    ghost shown = { λ value. value };

    ghost overflows = { λ _ _ _. false };

    #[inline(always)]
    fn push_value(&mut self, value: T) -> Result<(), Error> {
        Ok(self.push(value)?)
    }
}

impl StoredValues for MutableBitmap {
    type Stored = bool;

    type Around = ();

    ghost stored = { λ bitmap. bitmap };

    ghost around = { λ _. tt };

    #[inline(always)]
    fn count(&self) -> usize {
        self.len()
    }

    #[inline(always)]
    fn try_clone(&self) -> Result<MutableBitmap, Error> {
        self.clone()
    }
}

impl MutableValues for MutableBitmap {
    ghost default = { false };

    #[inline(always)]
    fn allocated_by(&self) -> Global {
        self.allocator()
    }

    #[inline(always)]
    fn push_default(&mut self) -> Result<(), Error> {
        self.push(false)
    }

    #[inline(always)]
    fn keep_first(&mut self, len: usize) {
        self.truncate(len);
    }

    #[inline(always)]
    fn drop_last(&mut self) {
        self.truncate(self.len() - 1);
    }

    ghost join_overflows = { λ _ _ _. false };

    #[inline(always)]
    fn append(&mut self, other: &MutableBitmap) -> Result<(), Error> {
        self.extend_from_bitmap(other)
    }

    #[inline(always)]
    fn make_room(&mut self, additional: usize) -> Result<(), Error> {
        self.reserve(additional)
    }

    #[inline(always)]
    fn drop_room(&mut self) -> Result<(), Error> {
        self.shrink_to_fit()
    }
}

impl PushValue<bool> for MutableBitmap {
    ghost shown = { λ value. value };

    ghost overflows = { λ _ _ _. false };

    #[inline(always)]
    fn push_value(&mut self, value: bool) -> Result<(), Error> {
        self.push(value)
    }
}

/// Values that can be changed in place.
pub trait SetValue<X>: PushValue<X> {
    /// Stores a value at `i`.
    fn set_value(&mut self, i: usize, value: X)
        requires { i < length (Self.stored self.old) }
        ensures stored { Self.stored self.new ≡ slice_set (Self.stored self.old) i (Self.shown value) }
        ensures around { Self.around self.new ≡ Self.around self.old };

    /// Stores the value of a null at `i`.
    fn set_default(&mut self, i: usize)
        requires { i < length (Self.stored self.old) }
        ensures stored { Self.stored self.new ≡ slice_set (Self.stored self.old) i Self.default }
        ensures around { Self.around self.new ≡ Self.around self.old };
}

impl<T: NativeType> SetValue<T> for Vec<T> {
    #[inline(always)]
    fn set_value(&mut self, i: usize, value: T) {
        self[i] = value;
    }

    #[inline(always)]
    fn set_default(&mut self, i: usize) {
        self[i] = T::default();
    }
}

impl SetValue<bool> for MutableBitmap {
    #[inline(always)]
    fn set_value(&mut self, i: usize, value: bool) {
        self.set(i, value);
    }

    #[inline(always)]
    fn set_default(&mut self, i: usize) {
        self.set(i, false);
    }
}

impl<'a, T: NativeType> Grow<&'a [T]> for Vec<T> {
    ghost given = { λ slice. slice.now };

    ghost overgrows = { λ _ _ _. false };

    #[inline(always)]
    fn grow(&mut self, values: &'a [T]) -> Result<usize, Error> {
        self.extend_from_slice(values)?;
        Ok(values.len())
    }
}

impl<T: NativeType> GrowFrom<Buffer<T>> for Vec<T> {
    #[inline(always)]
    fn grow_from(&mut self, other: &Buffer<T>, offset: usize, len: usize) -> Result<(), Error> {
        Ok(self.extend_from_slice(&other.as_slice()[offset..offset + len])?)
    }
}

impl GrowFrom<Bitmap> for MutableBitmap {
    #[inline(always)]
    fn grow_from(&mut self, other: &Bitmap, offset: usize, len: usize) -> Result<(), Error> {
        self.extend_from_range(other, offset, len)
    }
}

/// A value repeated `count` times.
#[derive(Clone, Copy)]
pub struct Repeated<T> {
    /// The value.
    pub value: T,
    /// The number of times.
    pub count: usize,
}

impl<T: NativeType> Grow<Repeated<T>> for Vec<T> {
    ghost given = { λ repeated. replicate repeated.count repeated.value };

    ghost overgrows = { λ _ _ _. false };

    #[inline(always)]
    fn grow(&mut self, values: Repeated<T>) -> Result<usize, Error> {
        let Some(total) = self.len().checked_add(values.count) else {
            return Err(Error::OutOfMemory);
        };
        self.resize(total, values.value)?;
        Ok(values.count)
    }
}
