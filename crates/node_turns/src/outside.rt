//! What a node asks of its source and its sink, whatever their format.
ghost use Rattle.std.specs.Prelude.{◌≡◌, ◌++◌, ◌∷◌, [], ℕ, Bool, true, false, List, IfOk, IfErr};
ghost use Rattle.spl_value.specs.Numbered.{closes};
ghost use Rattle.spl_value.specs.declared.item.Item.{Item};
ghost use Rattle.feed_pour.specs.Contents.{failed_write};
ghost use Rattle.feed_pour.specs.Counts.{Counted};
ghost use Rattle.network_model.specs.Networks.{Part};
ghost use Rattle.node_turns.specs.Calls.{SourceHas, Tuples};

use feed_pour::PourAnswer;
use spl_value::{Item, NoMemory, Values};

/// The reader of a FileSource with its feed.
pub trait Source: Drop {
    /// That the first is a reader of the source of this part, and the second is what these items have made of it.
    ghost gave: { Self → Part → List Item → Self → Type 0 };

    /// That these items are the first that a reader gives.
    ghost front: { Self → List Item → Type 0 };

    /// Whether it has given its last item.
    ghost over: { Self → Bool };

    /// The next item. An `Err` leaves the source spent.
    fn next(&mut self) -> Result<Item, NoMemory>
        requires { over self.old ≡ false }
        ensures gives { IfOk result (λ item. (first : Self) (part : Part) (items : List Item) → gave first part items self.old
            → SourceHas part item × gave first part (items ++ item ∷ []) self.new) }
        ensures over { IfOk result (λ item. over self.new ≡ closes item) }
        ensures lacks { IfErr result (λ _. (first : Self) (part : Part) (items : List Item) → gave first part items self.old
            → front first items) };

    /// Takes a tuple's memory back, to be filled again.
    fn give_back(&mut self, tuple: Values)
        ensures gave { (first : Self) (part : Part) (items : List Item) → gave first part items self.old → gave first part items self.new }
        ensures over { over self.new ≡ over self.old };
}

/// The writer of a FileSink with its pour.
pub trait Sink: Drop {
    /// That the second is what the writing of these tuples has made of the first.
    ghost took: { Self → Tuples → Self → Type 0 };

    /// That the second has written a front of the text of these tuples.
    ghost began: { Self → Tuples → Self → Type 0 };

    /// How many writes failed, up to 2^64 - 1.
    ghost faults: { Self → ℕ };

    /// Writes a tuple. After an `Err` a front of its text was written.
    fn put(&mut self, tuple: &Values) -> Result<(), PourAnswer>
        ensures took { IfOk result (λ _. (first : Self) (tuples : Tuples) → took first tuples self.old → took first (tuples ++ tuple.now ∷ []) self.new) }
        ensures began { IfErr result (λ _. (first : Self) (tuples : Tuples) → took first tuples self.old → began first (tuples ++ tuple.now ∷ []) self.new) }
        ensures cause { Counted (failed_write result) (faults self.old) (faults self.new) };
}
