//! Equality and hash of vectors: those of the set alone, whatever room the lists have.

ghost use Rattle.context_vector.specs.Equality.{vector_eq, vector_per, vector_equiv, vector_input, vector_alike};

use super::Vector;
use std::hash::{Hash, Hasher};

impl PartialEq for Vector {
    ghost eq = { vector_eq };

    ghost laws = { vector_per };

    fn eq(&self, other: &Vector) -> bool {
        self.lists.has_same_counts(&other.lists) && self.lists.has_same_names(&other.lists)
    }
}

impl Eq for Vector {
    ghost laws = { vector_equiv };
}

impl Hash for Vector {
    ghost hash_input = { vector_input };

    ghost respects_eq = { vector_alike };

    // Marks in the place of the counts and of the entries, so that the hasher is fed two numbers.
    fn hash<H: Hasher>(&self, state: &mut H) {
        self.lists.counts_mark().hash(state);
        self.lists.names_mark().hash(state);
    }
}
