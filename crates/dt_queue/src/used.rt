ghost use Rattle.std.specs.Prelude.{◌≡◌, ◌==◌, ◌&&◌, ◌++◌, nat_eq};
ghost use Rattle.std.specs.Cmp.{and_equiv, nat_eq_equiv, on_equiv};
ghost use Rattle.std.specs.Cmp.Lexicographic.{bytes_decides, nat_list_eq_equiv, pointwise};
ghost use Rattle.std.specs.Hash as fed;
ghost use Rattle.std.proofs.Common.{arith};
ghost use Rattle.std.proofs.lemmas.Bool.{and_parts};

use dt_text::Key;
use indexmap::Equivalent;
use std::hash::Hash;

/// A key at a home, which is looked up among the names of rows without a copy of the key.
#[derive(Clone, Copy, PartialEq, Eq, Hash)]
pub struct Used<'a> {
    pub home: u8,
    pub key: &'a Key,
}

impl Equivalent<(u8, Key)> for Used<'_> {
    ghost equivalent = { λ q name. (q.home == name.0) && pointwise nat_eq q.key.now name.1 };

    ghost respects_hash = { λ q name same.
        let both = and_parts (q.home == name.0) (pointwise nat_eq q.key.now name.1) same in
        let home : q.home ≡ name.0 = Prim.grind (arith, both.0) in
        let key : q.key.now ≡ name.1 = (bytes_decides q.key.now name.1).0 both.1 in
        (λ i. fed.u8 (home i) ++ fed.str (key i)) };

    ghost respects_eq = { λ q. (and_equiv (on_equiv (λ t. t.0) nat_eq_equiv) (on_equiv (λ t. t.1) nat_list_eq_equiv)).congr (q.home, q.key.now) };

    fn equivalent(&self, name: &(u8, Key)) -> bool {
        self.home == name.0 && *self.key == name.1
    }
}
