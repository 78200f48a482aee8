//! The arguments of a call, read one after another.
ghost use Rattle.std.specs.Prelude.{◌≡◌, ◌≤◌, length, option_map};
ghost use Rattle.wasi_call_table.specs.CallTable.{Maker, made_of, number_of_word};
ghost use Rattle.wasi_form.specs.Atoms.{atom_data, values_left};
ghost use Rattle.wasi_form.specs.CallForm as specs;

use crate::atoms::Atom;
use wasi_call_table::Kind;

/// The arguments of a call that weren't read yet.
#[derive(Clone, Copy)]
pub struct Arguments<'a> {
    pub left: &'a [Atom<'a>],
}

impl<'a> Arguments<'a> {
    fn next(&mut self) -> Option<Atom<'a>>
        ensures { option_map (λ atom. (atom_data atom, values_left self.new)) result
            ≡ specs.first_value (values_left self.old) }
    {
        let [first, left @ ..] = self.left else {
            return None;
        };
        self.left = left;
        Some(*first)
    }

    // The word of the next one, where it is a number of the kind.
    #[tactic(auto, unfolding(crate::specs::CallForm::first_number))]
    fn word(&mut self, kind: Kind) -> Option<u64>
        ensures { option_map (λ word. (number_of_word kind word, values_left self.new)) result
            ≡ specs.first_number kind (values_left self.old) }
    {
        let atom = self.next()?;
        atom.as_word(kind)
    }

    /// The words of all that are left, where they are as many as the kinds, and each is a number of its kind. Whatever a call
    /// is made of by these kinds, it is the same of the words as of the arguments.
    pub fn words(mut self, kinds: &[Kind]) -> Option<[u64; 8]>
        requires { length kinds.now ≤ 8 }
        ensures { (make : Maker kinds.now) → option_map (λ words. made_of kinds.now make 0 words) result
            ≡ specs.call_made kinds.now make (values_left self.entry) }
    {
        let mut words = [0; 8];
        for (place, kind) in kinds.iter().enumerate() {
            words[place] = self.word(*kind)?;
        }
        match self.next() {
            Some(_) => None,
            None => Some(words),
        }
    }
}
