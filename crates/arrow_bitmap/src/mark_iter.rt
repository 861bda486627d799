//! Double-ended iterators over marks: a bound that says which marks are left, as std's `Iterator` does not.
ghost use Rattle.std.specs.Prelude.{◌≡◌, ◌<◌, Bool, List, [], ◌∷◌, ◌++◌, length};

/// A double-ended iterator over marks. A caller that knows that a mark is left gets it without an
/// `Option`.
pub trait MarkIter: Drop {
    /// The marks that are left, in order.
    ghost marks: { Self → List Bool };

    /// Removes and returns the first mark that is left.
    fn pass(&mut self) -> bool
        requires { 0 < length (marks self.old) }
        ensures { marks self.old ≡ result ∷ marks self.new };

    /// Removes and returns the last mark that is left.
    fn pass_back(&mut self) -> bool
        requires { 0 < length (marks self.old) }
        ensures { marks self.old ≡ marks self.new ++ result ∷ [] };
}
