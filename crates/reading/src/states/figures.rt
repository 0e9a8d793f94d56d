// Figures, and when two of them are alike.
ghost use Rattle.std.specs.Prelude.{◌≡◌, T};
ghost use Rattle.reading.specs.Sound.{Alike};

use super::Figure;
use numbers::system::System;

impl<S: System> Figure<S> {
    pub fn element(&self) -> S
        ensures { result ≡ self.now.element }
    {
        self.element
    }

    pub fn count(&self) -> usize
        ensures { result ≡ self.now.count }
    {
        self.count
    }

    pub fn sum(&self) -> S
        ensures { result ≡ self.now.sum }
    {
        self.sum
    }

    // Whether the elements, the counts and the sums are the same.
    pub fn alike(&self, other: &Figure<S>) -> bool
        ensures equal { T result → Alike S.sys S.mean self.now other.now }
        ensures different { Alike S.sys S.mean self.now other.now → T result }
    {
        let same_element = self.element.same(&other.element);
        same_element && self.count == other.count && self.sum.same(&other.sum)
    }
}
