//! A history that only proofs read. It takes no memory, and its functions do nothing when they run.
ghost use Rattle.std.specs.Prelude.{◌≡◌, List, [], ◌∷◌};
ghost use base.Fml.{ftrue};

use std::marker::{Model, PhantomData};

/// What was noted, the newest first. A clause reads it as `items`.
#[derive(Drop)]
pub struct Log<A> {
    of: PhantomData<A>,
    pub ghost items: { List A },
}

impl<A> Model for Log<A> {
    ghost also_owns = { λ _. ftrue };
}

impl<A> Log<A> {
    /// A log in which nothing is noted.
    pub fn new() -> Log<A>
        ensures { result.items ≡ [] }
    {
        Log { of: PhantomData }
    }

    /// The log once this is noted too.
    pub fn and(&self, _noted: &A) -> Log<A>
        ensures { result.items ≡ _noted.now ∷ self.now.items }
    {
        Log { of: PhantomData }
    }
}
