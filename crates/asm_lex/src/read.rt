//! A text as tokens.
ghost use Rattle.std.specs.Prelude.{◌≡◌, ◌≢◌, ℕ, List, IfOk, IfErr, All, Ok, Err};
ghost use Rattle.asm_lex.specs.declared.token.Token.{Token};
ghost use Rattle.asm_lex.specs.declared.fault.TextFault.TheVariants.{Memory};
ghost use Rattle.asm_lex.specs.Grammar.{Reads};
ghost use Rattle.asm_lex.specs.Reading.{reading, result_of_reading, IsPieceOf};

use crate::fault::TextFault;
use crate::piece::{Piece, front};
use crate::token::Token;
use std::alloc::{AllocError, Allocator};

/// The tokens of a text up to its first fault, if any.
#[derive(Drop)]
pub struct Scan<A: Allocator> {
    /// The tokens before the fault, in order.
    pub tokens: Vec<Token, A>,
    /// The first fault; never `Memory`.
    pub fault: Option<TextFault>,
}

/// Reads a text up to its first fault. Fails only when out of memory.
#[tactic(auto, using(crate::proofs::Steps::gap_step, crate::proofs::Steps::lexeme_step, crate::proofs::Steps::bad_char, crate::proofs::Steps::bad_number, crate::proofs::Steps::open_text, crate::proofs::Steps::at_end))]
pub fn scan_text<A: Allocator + Copy>(alloc: A, text: &str) -> Result<Scan<A>, AllocError>
    ensures pieces { IfOk result (λ scan. All (IsPieceOf text.now) scan.tokens.items) }
    ensures exact { IfOk result (λ scan.
        reading 0 0 text.now ≡ record { tokens = scan.tokens.items; fault = scan.fault }) }
{
    let bytes = text.as_bytes();
    let mut tokens = Vec::new(alloc);
    let mut at = 0;
    'pieces: while at < bytes.len() {
        let (_, rest) = bytes.split_at(at);
        let fault = match front(rest) {
            Piece::Gap(len) => {
                at += len;
                continue;
            }
            Piece::Lexeme(kind, len) => {
                let end = at + len;
                tokens.push(Token {
                    kind,
                    start: at,
                    end,
                })?;
                at = end;
                continue;
            }
            Piece::BadChar => TextFault::BadChar(at),
            Piece::BadNumber => TextFault::BadNumber(at),
            Piece::OpenText => TextFault::OpenText(at),
        };
        return Ok(Scan {
            tokens,
            fault: Some(fault),
        });
    }
    Ok(Scan {
        tokens,
        fault: None,
    })
}

// The tokens of a text, or its first fault.
fn all_tokens<A: Allocator + Copy>(alloc: A, text: &str) -> Result<Vec<Token, A>, TextFault>
    ensures pieces { IfOk result (λ tokens. All (IsPieceOf text.now) tokens.items) }
    ensures ok { IfOk result (λ tokens. result_of_reading (reading 0 0 text.now) ≡ Ok tokens.items) }
    ensures err { IfErr result (λ fault. fault ≢ Memory → result_of_reading (reading 0 0 text.now) ≡ Err fault) }
{
    let scan = scan_text(alloc, text)?;
    match scan.fault {
        Some(fault) => Err(fault),
        None => Ok(scan.tokens),
    }
}

/// The tokens of a text in order, or its first fault. A comment is `#` and the rest of its line;
/// spaces and tabs only separate. Fails with `Memory` when out of memory.
pub fn tokens<A: Allocator + Copy>(alloc: A, text: &str) -> Result<Vec<Token, A>, TextFault>
    // Each token is the piece at its place.
    ensures pieces { IfOk result (λ tokens. All (IsPieceOf text.now) tokens.items) }
    // The tokens are those of the grammar.
    ensures found { IfOk result (λ tokens. Reads 0 text.now tokens.items) }
    // A text that has tokens by the grammar gives them, unless memory is exhausted.
    ensures only { (ts : List Token) → Reads 0 text.now ts
        → IfErr result (λ fault. fault ≡ Memory) }
    ensures ok { IfOk result (λ tokens. result_of_reading (reading 0 0 text.now) ≡ Ok tokens.items) }
    ensures err { IfErr result (λ fault. fault ≢ Memory → result_of_reading (reading 0 0 text.now) ≡ Err fault) }
{
    all_tokens(alloc, text)
}
