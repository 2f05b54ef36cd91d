//! The keys of the members of a search.
ghost use Rattle.std.specs.Prelude.{◌∷◌, []};
ghost use Rattle.std.specs.Cmp.Rules.{hashing};
ghost use Rattle.std.proofs.Common.{rules};

use std::hash::{Hash, Hasher};

/// The key of a member of a search.
#[derive(Debug, PartialEq, Eq, Drop)]
pub struct MemberKey {
    /// The bytes in which its window is written but for its names, its form variables and its first tag.
    pub bytes: Vec<u8>,
}

/// The bytes are hashed at once, and not one by one as those of a `Vec` are.
impl Hash for MemberKey {
    ghost hash_input = { λ key. key.bytes.items ∷ [] };

    ghost respects_eq = { Prim.search (hashing, rules) };

    fn hash<H: Hasher>(&self, state: &mut H) {
        state.write(self.bytes.as_slice());
    }
}
