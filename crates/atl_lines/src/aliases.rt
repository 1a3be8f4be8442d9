//! The set of the aliases that the FORM lines of a mailing have given so far.
//! See docs/RULES.md, "Reading a mailing".
ghost use Rattle.std.specs.Prelude.{◌≡◌, ◌≤◌, ◌+◌, ℕ, false, vec_len, slice_index_or, IfOk};
ghost use Rattle.atl_words.specs.Limits.{last_alias};

use atl_words::LAST_ALIAS;
use std::alloc::{AllocError, Global};

/// A flag for each number below `count`, none of them set. AllocError comes without memory.
fn no_aliases(alloc: Global, count: usize) -> Result<Vec<bool>, AllocError>
    ensures len { IfOk result (λ flags. vec_len flags ≡ count) }
    ensures clear { IfOk result (λ flags. (k : ℕ) → slice_index_or flags.items k false ≡ false) }
{
    let flags = vec![in alloc; false; count]?;
    Ok(flags)
}

/// The set of the aliases, from 1 to 9,999, that the FORM lines so far have given.
#[derive(Drop)]
pub struct Aliases {
    // Whether each number up to `LAST_ALIAS` is an alias that was given.
    given: Vec<bool>,
    ghost each: { vec_len given ≡ last_alias + 1 },
}

impl Aliases {
    ghost use Rattle.atl_lines.specs.Aliasing.{no_alias, with_alias};
    ghost use Rattle.atl_lines.specs.Views.{alias_set};

    /// The empty set of aliases, with memory for all of them. AllocError if there is none.
    pub fn new(alloc: Global) -> Result<Aliases, AllocError>
        ensures { IfOk result (λ made. alias_set made ≡ no_alias) }
    {
        Ok(Aliases {
            given: no_aliases(alloc, LAST_ALIAS as usize + 1)?,
        })
    }

    /// Whether an alias, at most `LAST_ALIAS`, is in the set.
    pub fn contains(&self, alias: u32) -> bool
        requires { alias ≤ last_alias }
        ensures { result ≡ alias_set self.now alias }
    {
        self.given[alias as usize]
    }

    /// Adds an alias, at most `LAST_ALIAS`, to the set. It takes no memory.
    pub fn add(&mut self, alias: u32)
        requires { alias ≤ last_alias }
        ensures { alias_set self.new ≡ with_alias (alias_set self.old) alias }
    {
        self.given[alias as usize] = true;
    }
}
