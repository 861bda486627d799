//! Changes of columns by closures, of which contracts say what they are given and what they return.
ghost use Rattle.std.specs.Prelude.{◌≡◌, List, Bool, length, IfSome, IsTrue, OnOk};
ghost use Rattle.std.specs.Bool.{OnFalse};
ghost use Rattle.std.specs.Borrow.{MutBor};
ghost use Rattle.std.specs.Fn.{FnOnceReturnsAtMut};
ghost use Rattle.arrow_types.specs.Failures.{OutOfMemoryKeeps};
ghost use Rattle.arrow_column.specs.Column.{mask_of, stored_values};
ghost use Rattle.arrow_column.specs.Changes.{ChangesMask, ReplacesStored, WritesStored, KeepsCount, ReplacesVec};

use crate::values::{MutableValues, Values};
use crate::{FrozenColumn, GrowingColumn};
use arrow_memory::bitmap::{Bitmap, MutableBitmap};
use arrow_memory::buffer::Buffer;
use arrow_types::error::Error;
use arrow_types::native_type::NativeType;
use std::mem;

#[tactic(auto, using(crate::proofs::RowLemmas::row_steps))]
impl<V: Values> FrozenColumn<V> {
    /// Replaces a held mask by what the closure returns for it. Does nothing if no mask is held.
    pub fn apply_validity<F: FnOnce(Bitmap) -> Bitmap + Drop>(&mut self, change: F)
        requires callable { IfSome (mask_of self.old) (λ marks. F.pre change marks) }
        requires keeps { IfSome (mask_of self.old) (λ marks. (changed : List Bool) → F.post change marks changed
            → length changed ≡ length marks) }
        ensures { ChangesMask (F.post change) self.old self.new }
    {
        if let Some(validity) = self.validity.take() {
            self.validity = Some(change(validity));
        }
    }
}

#[tactic(auto, using(crate::proofs::RowLemmas::row_steps))]
impl<V: MutableValues> GrowingColumn<V> {
    /// Replaces a held mask by what the closure returns for it. Does nothing if no mask is held.
    pub fn apply_validity<F: FnOnce(MutableBitmap) -> MutableBitmap + Drop>(&mut self, change: F)
        requires callable { IfSome (mask_of self.old) (λ marks. F.pre change marks) }
        requires keeps { IfSome (mask_of self.old) (λ marks. (changed : List Bool) → F.post change marks changed
            → length changed ≡ length marks) }
        ensures { ChangesMask (F.post change) self.old self.new }
    {
        if let Some(validity) = self.validity.take() {
            self.validity = Some(change(validity));
        }
    }
}

#[tactic(auto, using(crate::proofs::RowLemmas::row_steps))]
impl<T: NativeType> GrowingColumn<Vec<T>> {
    /// Replaces the stored values by what the closure returns for them. The marks stay.
    pub fn apply_values<F: Fn(Vec<T>) -> Vec<T>>(&mut self, change: F)
        requires callable { (values : _) → values.items ≡ stored_values self.old → F.pre change values }
        requires keeps { KeepsCount (F.post change) self.old }
        ensures { ReplacesVec (F.post change) self.old self.new }
    {
        let alloc = *self.values.allocator();
        let values = mem::replace(&mut self.values, Vec::new(alloc));
        self.values = change(values);
    }
}

#[tactic(auto, using(crate::proofs::RowLemmas::row_steps))]
impl<T: NativeType> FrozenColumn<Buffer<T>> {
    /// Calls `change` on the stored values if they are not shared, and returns whether it did.
    pub fn get_mut_values<F: FnOnce(&mut [T]) + Drop>(&mut self, change: F) -> bool
        requires { (values : MutBor (List T)) → values.now ≡ stored_values self.old → F.pre change values }
        ensures changed { IsTrue result → WritesStored (FnOnceReturnsAtMut F.FnOnce change) self.old self.new }
        ensures unchanged { OnFalse result (self.new ≡ self.old) }
    {
        self.values.get_mut_slice(change)
    }
}

#[tactic(auto, using(crate::proofs::RowLemmas::row_steps))]
impl FrozenColumn<Bitmap> {
    /// Replaces the stored booleans by what the closure returns for them. Shared values are
    /// copied first. The marks stay. All memory is allocated before the closure is called.
    ///
    /// # Errors
    /// `OutOfMemory` if an allocation fails; the closure is then not called and the column is
    /// unchanged.
    pub fn apply_values_mut<F: Fn(MutableBitmap) -> MutableBitmap>(
        &mut self,
        change: F,
    ) -> Result<(), Error>
        requires callable { F.pre change (stored_values self.old) }
        requires keeps { (changed : List Bool) → F.post change (stored_values self.old) changed
            → length changed ≡ length self.old.rows }
        ensures ok { OnOk result (ReplacesStored (F.post change) self.old self.new) }
        ensures err { OutOfMemoryKeeps result self.old self.new }
    {
        self.values.apply_mut(change)?;
        Ok(())
    }
}
