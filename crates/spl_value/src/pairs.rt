//! The pairs of a map, by ascending key.
ghost use Rattle.std.specs.Prelude.{◌≡◌, ◌≢◌, ◌↔◌, List, IsTrue, MatchResult, OnOk, OnErr, Contains};
ghost use Rattle.std.specs.Option.{option_copied};
ghost use Rattle.spl_value.specs.Pairs.{are_pairs, pairs_get, pairs_contain, pairs_put, pairs_without, KeysRise, IsAt, IsGap};

use crate::{Items, NoMemory, Value, order};

impl Items<(Value, Value)> {
    // The place of the key, or the place where it belongs, by binary search.
    pub(crate) fn place(&self, key: &Value) -> Result<usize, usize>
        requires { IsTrue (are_pairs self.now) }
        ensures { MatchResult result (IsAt key.now self.now) (IsGap key.now self.now) }
    {
        self.as_slice().binary_search_by(|pair| order(&pair.0, key))
    }

    /// The value at a key.
    #[tactic(auto, using(crate::proofs::PairsLaws::pairs_laws))]
    pub(crate) fn find(&self, key: &Value) -> Option<&Value>
        requires { IsTrue (are_pairs self.now) }
        ensures { option_copied result ≡ pairs_get self.now key.now }
    {
        match self.place(key) {
            Ok(at) => Some(&self.as_slice()[at].1),
            Err(_) => None,
        }
    }

    /// Puts a value at a key: in place of the value that the key has, or else in a new pair.
    #[tactic(auto, using(crate::proofs::PairsLaws::pairs_laws))]
    pub(crate) fn put(&mut self, key: Value, value: Value) -> Result<(), NoMemory>
        requires { IsTrue (are_pairs self.old) }
        ensures ok { OnOk result (self.new ≡ pairs_put self.old key value) }
        ensures err { OnErr result (self.new ≡ self.old) }
        ensures sorted { IsTrue (are_pairs self.new) }
    {
        match self.place(&key) {
            Ok(at) => self.set(at, (key, value)),
            Err(at) => self.insert(at, (key, value))?,
        }
        Ok(())
    }

    /// Takes the pair with the key out, and gives its value, where there is one.
    #[tactic(auto, using(crate::proofs::PairsLaws::pairs_laws))]
    pub(crate) fn remove_key(&mut self, key: &Value) -> Option<Value>
        requires { IsTrue (are_pairs self.old) }
        ensures value { result ≡ pairs_get self.old key.now }
        ensures others { self.new ≡ pairs_without self.old key.now }
        ensures sorted { IsTrue (are_pairs self.new) }
    {
        match self.place(key) {
            Ok(at) => {
                let (_, value) = self.remove(at);
                Some(value)
            }
            Err(_) => None,
        }
    }
}

/// What pairs are, and what a change of them leaves at each key.
pub fn pairs_law()
    ensures rise { (ps : List (Value × Value)) → IsTrue (are_pairs ps) ↔ KeysRise ps }

    // The value at a key is that of the pair with the key, and pairs are known by their look-up.
    ensures get { (ps : List (Value × Value)) (k v : Value) → IsTrue (are_pairs ps)
        → (pairs_get ps k ≡ Some v) ↔ Contains ps (k, v) }
    ensures same { (ps qs : List (Value × Value)) → IsTrue (are_pairs ps) → IsTrue (are_pairs qs)
        → ((k : Value) → pairs_get ps k ≡ pairs_get qs k) → ps ≡ qs }

    ensures put { (ps : List (Value × Value)) (k v : Value)
        → pairs_get (pairs_put ps k v) k ≡ Some v }
    ensures put_others { (ps : List (Value × Value)) (k v q : Value) → q ≢ k
        → pairs_get (pairs_put ps k v) q ≡ pairs_get ps q }
    ensures put_sorted { (ps : List (Value × Value)) (k v : Value) → IsTrue (are_pairs ps)
        → IsTrue (are_pairs (pairs_put ps k v)) }

    ensures without { (ps : List (Value × Value)) (k : Value)
        → pairs_get (pairs_without ps k) k ≡ None }
    ensures without_others { (ps : List (Value × Value)) (k q : Value) → q ≢ k
        → pairs_get (pairs_without ps k) q ≡ pairs_get ps q }
    ensures without_sorted { (ps : List (Value × Value)) (k : Value) → IsTrue (are_pairs ps)
        → IsTrue (are_pairs (pairs_without ps k)) }
{}
