//! Where pages and saved lines are put.

ghost use Rattle.std.specs.Prelude.{IsTrue};

/// What puts a page, or lines that are saved, at a path.
pub trait Pages {
    ghost use Rattle.std.specs.Prelude.{ℕ, List};

    /// This page was put at this path, though another may have taken its place.
    ghost has_put: { Self → List ℕ → List ℕ → Type 0 };

    /// Puts a page, or lines, at a path, and answers whether it could.
    fn put(&mut self, path: &str, page: &[u8]) -> bool
        ensures put { IsTrue result → has_put self.new path.now page.now }
        ensures before { (at text : List ℕ) → has_put self.old at text → has_put self.new at text };
}
