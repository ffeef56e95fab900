//! What ids have in common: each is a number of a kind, and a kind has a name, by which its ids are shown.
ghost use Rattle.std.specs.Prelude.{◌≡◌, List, ℕ};

/// A kind of ids that has a name: with it, an id of the kind has a text.
///
/// The markers of `Id` and `Idx` implement it. A marker need not: then its ids have no text.
pub trait Kind {
    ghost name: { List ℕ };

    /// Returns the name of the ids of this kind, as `FunctionId`.
    fn name() -> &'static str
        ensures { result.now ≡ name };
}
