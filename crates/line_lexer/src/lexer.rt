ghost use Rattle.std.specs.Prelude.{◌≡◌, ◌≤◌, ◌↔◌, [], length, IsOk, MatchResult};
ghost use Rattle.line_lexer.specs.Lines.{lines, lines_from};
ghost use Rattle.line_lexer.specs.Seen.{most_bytes};
ghost use Rattle.line_lexer.specs.Calls.{GoesOn, SameLine, TakesWord, ReadsNumber, text_at};

use crate::count::line_count;
use crate::fault::{LexFault, TextFault};
use crate::next_line::{NextLine, find_next_line};
use crate::number::decimal;
use crate::refusal::{Counted, TextRefusal};
use crate::scan::{word_end, word_start};
use crate::token::Token;
use std::marker::Model;

/// The bytes that a text may have.
pub const MOST_BYTES: usize = 4_194_304;

/// Goes over the lines of a text, and over the words of a line.
#[derive(Drop)]
pub struct Lexer<'a> {
    bytes: &'a [u8],
    /// Where the lines begin that weren't taken.
    at: usize,
    /// How many lines come before that place.
    passed: u32,
    /// The line that was last taken, or 0.
    line: u32,
    /// Where the words that are left on that line begin and end.
    word: usize,
    end: usize,
}

impl<'a> Model for Lexer<'a> {
    ghost use Rattle.line_lexer.specs.Seen.{Seen, seen_at, IsInside};

    ghost Value = { Seen };

    ghost view = { λ s. seen_at s.bytes.now s.at s.passed s.line s.word s.end };

    ghost invariant = { λ s. IsInside s.bytes.now s.at s.passed s.line s.word s.end };
}

impl<'a> Lexer<'a> {
    /// A lexer before the first line of a text of at most [`MOST_BYTES`] bytes.
    #[tactic(auto, using(crate::proofs::Words::words_nil, crate::proofs::WordPlaces::word_places_nil), unfolding(crate::specs::WordPlaces::line_start))]
    pub fn new(bytes: &'a [u8]) -> Lexer<'a>
        requires { length bytes.now ≤ most_bytes }
        ensures bytes { result.bytes ≡ bytes.now }
        ensures ahead { result.ahead ≡ lines_from 1 bytes.now }
        ensures line { result.line ≡ 0 }
        ensures words { result.words ≡ [] }
        ensures places { result.places ≡ [] }
    {
        Lexer {
            bytes,
            at: 0,
            passed: 0,
            line: 0,
            word: 0,
            end: 0,
        }
    }

    /// Goes to the next line that has a word or a bad byte. It answers false where there is none, and the fault
    /// `Byte` where that line has a bad byte: then the lexer stays before it, so each later call answers this fault.
    #[tactic(auto, using(crate::proofs::Words::words_nil, crate::proofs::WordPlaces::word_places_nil, crate::proofs::Lines::lines_from_nil))]
    pub fn next_line(&mut self) -> Result<bool, LexFault>
        ensures bytes { self.new.bytes ≡ self.old.bytes }
        ensures next { GoesOn self.old self.new result }
    {
        match find_next_line(self.bytes, self.at, self.passed) {
            NextLine::End { passed } => {
                self.at = self.bytes.len();
                self.passed = passed;
                self.word = 0;
                self.end = 0;
                Ok(false)
            }
            NextLine::Bad { at, passed } => {
                self.at = at;
                self.passed = passed;
                self.word = 0;
                self.end = 0;
                Err(LexFault {
                    line: passed + 1,
                    kind: TextFault::Byte,
                })
            }
            NextLine::Words {
                at,
                passed,
                word,
                end,
            } => {
                self.at = at;
                self.passed = passed;
                self.line = passed;
                self.word = word;
                self.end = end;
                Ok(true)
            }
        }
    }

    /// Takes the next word of the line, where it stands in the input. There is none before the first `next_line`, nor after one that answered
    /// false or a fault.
    pub fn next_word(&mut self) -> Option<Token>
        ensures line { SameLine self.old self.new }
        ensures word { TakesWord self.old self.new result }
    {
        let skipped = word_start(&self.bytes[self.word..self.end]);
        let start = self.word + skipped;
        let len = word_end(&self.bytes[start..self.end]);
        if len == 0 {
            self.word = self.end;
            return None;
        }
        self.word = start + len;
        Some(Token {
            line: self.line,
            start,
            end: start + len,
        })
    }

    /// The word where a token stands.
    pub fn text(&self, token: Token) -> &'a [u8]
        requires order { token.start ≤ token.end }
        requires within { token.end ≤ length self.now.bytes }
        ensures { result.now ≡ text_at self.now.bytes token }
    {
        &self.bytes[token.start..token.end]
    }

    /// The number that a word spells: 1 to 9 decimal digits, of which the first may be zeros. Any other word is the
    /// fault `Number`.
    pub fn number(&self, token: Token) -> Result<u32, LexFault>
        requires order { token.start ≤ token.end }
        requires within { token.end ≤ length self.now.bytes }
        ensures { ReadsNumber (text_at self.now.bytes token) token.line result }
    {
        match decimal(self.text(token)) {
            Some(n) => Ok(n),
            None => Err(LexFault {
                line: token.line,
                kind: TextFault::Number,
            }),
        }
    }

    /// The name that a word is. A word of more than 32 bytes is above the limit on `NameBytes`.
    pub fn name(&self, token: Token) -> Result<&'a [u8], TextRefusal>
        requires order { token.start ≤ token.end }
        requires within { token.end ≤ length self.now.bytes }
        ensures few { IsOk result ↔ (length (text_at self.now.bytes token) ≤ 32) }
        ensures value { MatchResult result (λ name. name.now ≡ text_at self.now.bytes token)
            (λ refusal. refusal ≡ TextRefusal.Limit Counted.NameBytes (length (text_at self.now.bytes token))) }
    {
        let word = &self.bytes[token.start..token.end];
        if word.len() > 32 {
            return Err(TextRefusal::Limit {
                what: Counted::NameBytes,
                found: word.len() as u32,
            });
        }
        Ok(word)
    }

    /// How many lines the input has. Each call goes over the whole input.
    pub fn last_line(&self) -> u32
        ensures value { result ≡ length (lines self.now.bytes) }
        ensures few { result ≤ most_bytes }
    {
        line_count(self.bytes)
    }

    /// The number of the line that was last gone to, or 0 before the first.
    #[tactic(auto, using(crate::proofs::Lines::length_lines_le))]
    pub fn line(&self) -> u32
        ensures value { result ≡ self.now.line }
        ensures within { result ≤ length (lines self.now.bytes) }
        ensures few { result ≤ most_bytes }
    {
        self.line
    }
}
