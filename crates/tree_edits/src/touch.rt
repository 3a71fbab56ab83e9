ghost use Rattle.std.specs.Prelude.{◌≡◌};
ghost use Rattle.std.specs.Option.{option_copied};

use crate::held::Held;
use std::marker::Model;

/// A path that an edit touched, with what stands there now, or that nothing does.
#[derive(Drop)]
pub struct Touch<'a> {
    path: &'a [u8],
    held: Option<&'a Held>,
}

impl<'a> Model for Touch<'a> {
    ghost use Rattle.std.specs.Prelude.{ℕ, List, Option};
    ghost use Rattle.std.specs.Option.{option_map};
    ghost use Rattle.tree_edits.specs.declared.held.Held.{Held};

    ghost Value = { List ℕ × Option Held };

    ghost view = { λ t. (t.path.now, option_map (λ h. h.now) t.held) };
}

impl<'a> Touch<'a> {
    /// The touch of a path.
    pub fn of(path: &'a [u8], held: Option<&'a Held>) -> Touch<'a>
        ensures { result ≡ (path.now, option_copied held.entry) }
    {
        Touch { path, held }
    }

    /// The path's text.
    pub fn path(&self) -> &'a [u8]
        ensures { result.now ≡ self.now.0 }
    {
        self.path
    }

    /// What stands there now.
    pub fn held(&self) -> Option<&'a Held>
        ensures { option_copied result ≡ self.now.1 }
    {
        self.held
    }
}
