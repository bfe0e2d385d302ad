//! What operators may be asked, and what they answer.
ghost use Rattle.std.specs.Prelude.{[], ◌∷◌, None, pos};
ghost use Rattle.spl_value.specs.declared.item.Item.TheVariants as I;
ghost use Rattle.stream_model.specs.declared.reply.Reply.TheVariants as R;
ghost use Rattle.stream_model.specs.Bodies.{output};
ghost use Rattle.stream_model.specs.Replies.{MayTake, OutsFit, Replies, ReplyLaw};
ghost use Rattle.stream_model.specs.Stream.{came};
ghost use Rattle.stream_model.specs.examples.Reacting.{adding_one, after, numbers};

/// What an operator answers to an event depends on the history up to this event: operators are causal.
pub fn replies_law()
    ensures causal { ReplyLaw }
{}

/// A Functor of numbers may take a number after one, answers the number that it makes, which has the
/// attributes of its stream, and ends with the final marker. After that it may take nothing.
pub fn replies_on_literals()
    ensures taken { MayTake adding_one (after (numbers (pos 3 ∷ []) ∷ [])) (came 0 (numbers (pos 4 ∷ []))) }
    ensures made { Replies adding_one (after (numbers (pos 3 ∷ []) ∷ [])) (came 0 (numbers (pos 4 ∷ []))) (R.Out (output 0 (numbers (pos 5 ∷ [])) ∷ [])) }
    ensures fits { OutsFit adding_one (R.Out (output 0 (numbers (pos 5 ∷ [])) ∷ [])) }
    ensures ended { Replies adding_one (after (numbers (pos 3 ∷ []) ∷ [])) (came 0 I.Final) (R.Ended (output 0 I.Final ∷ []) None) }
    ensures over { MayTake adding_one (after (I.Final ∷ [])) (came 0 (numbers (pos 4 ∷ []))) → ⊥ }
{}
