//! Things with a title, the name by which a text refers to them.
//! See docs/FORMATS.md, "The world file".
ghost use Rattle.std.specs.Prelude.{◌≡◌, ℕ, List};

use crate::text::Text;

/// A thing with a title: the name by which it is looked up, or by which it has to differ from the
/// other things of its array.
pub trait Titled {
    ghost title_of: { Self → List ℕ };

    fn title(&self) -> &Text
        ensures { result.now ≡ title_of self.now };
}
