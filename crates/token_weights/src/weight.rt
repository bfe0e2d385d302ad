//! How much tokens weigh.
ghost use Rattle.std.specs.Prelude.{◌≡◌, ◌≤◌, true, length, IfOk};
ghost use Rattle.spl_tree.specs.Weights.{symbol_effect, effect, Closes, next_adds, too_deep_from};
ghost use Rattle.token_weights.specs.Weighed.{effect_of, brackets, weighing_of, kept_start, kept_after};

use spl_tree::{Keyword, Symbol, Token, TokenKind};
use spl_value::{Items, NoMemory};
use std::alloc::{AllocError, Global};

/// The most that a token may weigh.
const MOST_WEIGHT: u8 = 200;

/// What a token does to the weight.
#[derive(Clone, Copy)]
enum Effect {
    Nothing,
    Adds,
    Opens,
    /// Whether the bracket is a brace.
    Closes(bool),
    Separates,
}

/// A weight, and the weights before the brackets that are open, the outermost first. A weight over 255
/// stands here as 255: both are too much.
#[derive(Drop)]
struct Weighing {
    weight: u8,
    before: Items<u8>,
}

fn symbol_effect(symbol: Symbol) -> Effect
    ensures { effect_of result ≡ symbol_effect symbol }
{
    match symbol {
        Symbol::LeftParen | Symbol::LeftBracket | Symbol::LeftBrace => Effect::Opens,
        Symbol::RightParen | Symbol::RightBracket => Effect::Closes(false),
        Symbol::RightBrace => Effect::Closes(true),
        Symbol::Comma | Symbol::Semicolon => Effect::Separates,
        _ => Effect::Adds,
    }
}

fn kind_effect(kind: &TokenKind) -> Effect
    ensures { effect_of result ≡ effect kind.now }
{
    match kind {
        TokenKind::Symbol(symbol) => symbol_effect(*symbol),
        TokenKind::Keyword(Keyword::In) => Effect::Adds,
        _ => Effect::Nothing,
    }
}

/// Whether the first token adds to the weight.
fn next_adds(tokens: &[Token]) -> bool
    ensures { result ≡ next_adds tokens.now }
{
    let Some(token) = tokens.first() else {
        return false;
    };
    match kind_effect(&token.kind) {
        Effect::Adds => true,
        _ => false,
    }
}

/// The weight at which the level inside these brackets starts.
fn level_start(before: &[u8]) -> u8
    ensures { result ≡ kept_start (brackets before.now) }
{
    match before.last() {
        Some(before) => before.saturating_add(1),
        None => 0,
    }
}

impl Weighing {
    /// Weighs a closing bracket, and returns its own weight.
    fn close(&mut self, brace: bool, next_adds: bool) -> u8
        ensures after { weighing_of self.new ≡ kept_after (Closes brace) next_adds (weighing_of self.old) }
        ensures own { result ≡ (kept_after (Closes brace) true (weighing_of self.old)).weight }
    {
        let Some(before) = self.before.pop() else {
            return self.weight;
        };
        self.weight = if brace && !next_adds {
            level_start(self.before.as_slice())
        } else {
            before
        };
        before
    }

    /// Weighs a token that does this, and returns its own weight. That of a closing brace may be more than the weight
    /// after it.
    fn weigh(&mut self, effect: Effect, next_adds: bool) -> Result<u8, AllocError>
        ensures after { IfOk result (λ _. weighing_of self.new ≡ kept_after (effect_of effect) next_adds (weighing_of self.old)) }
        ensures own { IfOk result (λ own. own ≡ (kept_after (effect_of effect) true (weighing_of self.old)).weight) }
    {
        match effect {
            Effect::Nothing => {}
            Effect::Adds => self.weight = self.weight.saturating_add(1),
            Effect::Opens => {
                self.before.push(self.weight)?;
                self.weight = self.weight.saturating_add(1);
            }
            Effect::Closes(brace) => return Ok(self.close(brace, next_adds)),
            Effect::Separates => self.weight = level_start(self.before.as_slice()),
        }
        Ok(self.weight)
    }
}

/// The place in the list of the first token from `from` on that weighs too much. It is weighed with
/// all tokens of the list.
pub fn too_deep(alloc: Global, tokens: &[Token], from: usize) -> Result<Option<usize>, NoMemory>
    requires { from ≤ length tokens.now }
    ensures { IfOk result (λ at. at ≡ too_deep_from from tokens.now) }
{
    let mut weighing = Weighing {
        weight: 0,
        before: Items::new(alloc),
    };
    for (i, token) in tokens.iter().enumerate() {
        let own = weighing.weigh(kind_effect(&token.kind), next_adds(&tokens[i + 1..]))?;
        if i < from {
            continue;
        }
        if own > MOST_WEIGHT {
            return Ok(Some(i));
        }
    }
    Ok(None)
}
