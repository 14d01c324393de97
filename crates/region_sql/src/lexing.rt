//! The tokens of a whole text.

ghost use Rattle.std.specs.Prelude.{◌≡◌, ◌∷◌, ◌-◌, ℕ, List, length, slice_index, IfOk};
ghost use Rattle.region_sql.specs.Lexing.{Lexes, Ends};

use crate::byte_classes::after_blanks;
use crate::lexer::token_at;
use crate::tokens::Token;
use mr_base::Memory;
use std::alloc::Global;

/// The tokens of a text up to the first place where none fits.
#[derive(Drop)]
pub(crate) struct Lexed {
    pub(crate) tokens: Vec<Token>,
    /// The place just after each token, in bytes.
    pub(crate) ends: Vec<usize>,
    /// Whether nothing but blanks is left.
    pub(crate) is_whole: bool,
}

impl Lexed {
    /// The place just after all the tokens but the last `left`.
    pub(crate) fn place(&self, left: usize) -> usize
        ensures { result ≡ slice_index (0 ∷ self.now.ends.items) (length self.now.ends.items - left) }
    {
        match self.ends.len().saturating_sub(left) {
            0 => 0,
            taken => self.ends[taken - 1],
        }
    }
}

/// Splits a text into tokens, at each place the longest that fits.
pub(crate) fn lex(alloc: Global, text: &[u8]) -> Result<Lexed, Memory>
    ensures { IfOk result (λ l. (rest : List ℕ)
        × Lexes (length text.now) text.now l.tokens.items l.ends.items rest × Ends l.is_whole rest) }
{
    let mut tokens = Vec::new(alloc);
    let mut ends = Vec::new(alloc);
    let mut rest = text;
    loop {
        let front = after_blanks(rest);
        if front.is_empty() {
            return Ok(Lexed {
                tokens,
                ends,
                is_whole: true,
            });
        }
        let Some((token, next)) = token_at(alloc, front)? else {
            return Ok(Lexed {
                tokens,
                ends,
                is_whole: false,
            });
        };
        tokens.push(token)?;
        ends.push(text.len() - next.len())?;
        rest = next;
    }
}
