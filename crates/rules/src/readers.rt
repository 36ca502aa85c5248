// The readers of the grammar: they call each other, with fewer tokens left each time.
ghost use Rattle.std.specs.Prelude.{◌≡◌, ℕ, ◌+◌, ◌<◌, ◌≤◌, length, drop, MatchBool, MatchResult};
ghost use Rattle.tokens.specs.declared.token.Token.TheVariants.{Number, Name};
ghost use Rattle.rules.specs.Grammar.{part as a_part, meet as a_meet, expr as an_expr, window as a_window, limit as a_limit, span as a_span, modal_token, side_token, Fails};
ghost use Rattle.rules.specs.Readers.{ReadAs, ReadLimit, StopsAt, TookToken, Missed, Isnt, NoSide, NoNumber, Built, ReaderReady, IsAt, ShortNumbers};
ghost use Rattle.rules.specs.Texts.{Derived};

use crate::modality::Modality;
use crate::row::{Row, Side};
use crate::table::Table;
use tokens::token::Token;

// The first token with which no rule text can go on.
#[derive(Clone, Copy)]
pub(crate) struct Stop {
    pub(crate) at: usize,
}

// What was read, and the token behind it.
#[derive(Clone, Copy)]
struct Taken<T> {
    value: T,
    next: usize,
}

// A window that was read, and the token behind it.
#[derive(Clone, Copy)]
struct Span {
    from: u32,
    to: u32,
    next: usize,
}

// A phrase that was read: the token behind it, and its last row.
#[derive(Clone, Copy)]
struct Done {
    next: usize,
    root: usize,
}

// The tokens of a text. Phrases are read from a place on, where `depth` tokens that make depth are around.
// A place stays a number, since each reader answers the next one.
#[derive(Clone, Copy)]
pub(crate) struct Source<'a> {
    pub(crate) tokens: &'a [Token],
    ghost short: { ShortNumbers tokens.now },
}

impl Source<'_> {
    // The token at this place.
    fn token(&self, at: usize) -> Result<Token, Stop>
        requires { at ≤ length self.now.tokens.now }
        ensures { MatchResult result (λ t. IsAt t self.now.tokens.now at) (λ f. (f.at ≡ at) × (length self.now.tokens.now ≤ at)) }
    {
        self.tokens.get(at).copied().ok_or(Stop { at })
    }

    // Whether this token is at this place.
    fn has(&self, at: usize, wanted: Token) -> bool
        ensures { MatchBool result (IsAt wanted self.now.tokens.now at) (Isnt wanted (drop at self.now.tokens.now)) }
    {
        self.tokens.get(at) == Some(&wanted)
    }

    fn exact(&self, at: usize, wanted: Token) -> Result<usize, Stop>
        requires { at ≤ length self.now.tokens.now }
        ensures { MatchResult result (λ e. TookToken wanted self.now.tokens.now at e) (λ f. Missed (Isnt wanted) self.now.tokens.now at f.at) }
    {
        if self.has(at, wanted) {
            Ok(at + 1)
        } else {
            Err(Stop { at })
        }
    }

    fn number(&self, at: usize) -> Result<Taken<u32>, Stop>
        requires { at ≤ length self.now.tokens.now }
        ensures { MatchResult result (λ n. TookToken (Number n.value) self.now.tokens.now at n.next) (λ f. Missed NoNumber self.now.tokens.now at f.at) }
    {
        let token = self.token(at)?;
        match token {
            Token::Number(value) => Ok(Taken {
                value,
                next: at + 1,
            }),
            _ => Err(Stop { at }),
        }
    }

    fn comparison(&self, at: usize) -> Result<Taken<Side>, Stop>
        requires { at ≤ length self.now.tokens.now }
        ensures { MatchResult result (λ s. TookToken (side_token s.value) self.now.tokens.now at s.next) (λ f. Missed NoSide self.now.tokens.now at f.at) }
    {
        let token = self.token(at)?;
        let value = match token {
            Token::AtLeast => Side::AtLeast,
            Token::AtMost => Side::AtMost,
            _ => return Err(Stop { at }),
        };
        Ok(Taken {
            value,
            next: at + 1,
        })
    }

    fn window(&self, at: usize) -> Result<Span, Stop>
        requires { at ≤ length self.now.tokens.now }
        ensures { MatchResult result (λ w. ReadAs (a_span w.from w.to) self.now.tokens.now at w.next) (λ f. StopsAt a_window self.now.tokens.now at f.at) }
    {
        let left = self.exact(at, Token::Left)?;
        let from = self.number(left)?;
        let comma = self.exact(from.next, Token::Comma)?;
        let to = self.number(comma)?;
        let next = self.exact(to.next, Token::Right)?;
        Ok(Span {
            from: from.value,
            to: to.value,
            next,
        })
    }

    fn limit(&self, at: usize) -> Result<Taken<i32>, Stop>
        requires { at ≤ length self.now.tokens.now }
        ensures { MatchResult result (λ v. ReadLimit self.now.tokens.now at v.next v.value) (λ f. StopsAt a_limit self.now.tokens.now at f.at) }
    {
        let token = self.token(at)?;
        match token {
            Token::Number(number) => Ok(Taken {
                value: number as i32,
                next: at + 1,
            }),
            Token::Minus => {
                let number = self.number(at + 1)?;
                Ok(Taken {
                    value: -(number.value as i32),
                    next: number.next,
                })
            }
            _ => Err(Stop { at }),
        }
    }

    // A test of a line against a limit; the name is at `at`.
    fn test(&self, at: usize, line: Option<u8>, table: &mut Table) -> Result<Done, Stop>
        requires name { IsAt (Name line) self.now.tokens.now at }
        requires few { table.old.count ≤ at }
        ensures { MatchResult result (λ d. (depth : ℕ) → Built a_part self.now.tokens.now at depth table.old table.new d.next d.root) (λ f. StopsAt a_part self.now.tokens.now at f.at) }
    {
        let side = self.comparison(at + 1)?;
        let limit = self.limit(side.next)?;
        // A name that no line has is refused elsewhere.
        let line = line.unwrap_or(0);
        let root = table.push(Row::Test {
            line,
            side: side.value,
            limit: limit.value,
        });
        Ok(Done {
            next: limit.next,
            root,
        })
    }

    // The three that follow call one another, as the phrases of the grammar do: each falls by the place, and hands the depth and the table on.
    // `expression` and `meet` are alike but for what they read and join; a reader that is handed in would leave that cycle.

    // Meets joined by `|`, grouped from the left.
    #[cycle(expression_meet_part)]
    fn expression(&self, at: usize, depth: usize, table: &mut Table) -> Result<Done, Stop>
        requires { ReaderReady self.now.tokens.now at depth table.old }
        ensures { MatchResult result (λ d. Built an_expr self.now.tokens.now at depth table.old table.new d.next d.root) (λ f. StopsAt an_expr self.now.tokens.now at f.at) }
    {
        let mut left = self.meet(at, depth, table)?;
        while self.has(left.next, Token::Or) {
            let right = self.meet(left.next + 1, depth, table)?;
            let root = table.push(Row::Or {
                left: left.root,
                right: right.root,
            });
            left = Done {
                next: right.next,
                root,
            };
        }
        Ok(left)
    }

    // Parts joined by `&`, grouped from the left.
    #[cycle(expression_meet_part)]
    fn meet(&self, at: usize, depth: usize, table: &mut Table) -> Result<Done, Stop>
        requires { ReaderReady self.now.tokens.now at depth table.old }
        ensures { MatchResult result (λ d. Built a_meet self.now.tokens.now at depth table.old table.new d.next d.root) (λ f. StopsAt a_meet self.now.tokens.now at f.at) }
    {
        let mut left = self.part(at, depth, table)?;
        while self.has(left.next, Token::And) {
            let right = self.part(left.next + 1, depth, table)?;
            let root = table.push(Row::And {
                left: left.root,
                right: right.root,
            });
            left = Done {
                next: right.next,
                root,
            };
        }
        Ok(left)
    }

    // A test, or one of `!`, F, G and brackets around more.
    #[cycle(expression_meet_part)]
    fn part(&self, at: usize, depth: usize, table: &mut Table) -> Result<Done, Stop>
        requires { ReaderReady self.now.tokens.now at depth table.old }
        ensures { MatchResult result (λ d. Built a_part self.now.tokens.now at depth table.old table.new d.next d.root) (λ f. StopsAt a_part self.now.tokens.now at f.at) }
    {
        let token = self.token(at)?;
        match token {
            Token::Name(line) => self.test(at, line, table),
            Token::Not => {
                table.rise(at, depth + 1);
                let child = self.part(at + 1, depth + 1, table)?;
                let root = table.push(Row::Not { child: child.root });
                Ok(Done {
                    next: child.next,
                    root,
                })
            }
            Token::Eventually => self.modal(Modality::Eventually, at, depth, table),
            Token::Always => self.modal(Modality::Always, at, depth, table),
            Token::Open => {
                table.rise(at, depth + 1);
                let first = self.expression(at + 1, depth + 1, table)?;
                let behind = self.token(first.next)?;
                match behind {
                    Token::Close => Ok(Done {
                        next: first.next + 1,
                        root: first.root,
                    }),
                    Token::Until => {
                        let span = self.window(first.next + 1)?;
                        let second = self.expression(span.next, depth + 1, table)?;
                        let next = self.exact(second.next, Token::Close)?;
                        let root = table.push(Row::Until {
                            from: span.from,
                            to: span.to,
                            left: first.root,
                            right: second.root,
                        });
                        Ok(Done { next, root })
                    }
                    _ => Err(Stop { at: first.next }),
                }
            }
            _ => Err(Stop { at }),
        }
    }

    // A window and a part behind F or G, which is at `at`.
    #[cycle(expression_meet_part)]
    fn modal(
        &self,
        modality: Modality,
        at: usize,
        depth: usize,
        table: &mut Table,
    ) -> Result<Done, Stop>
        requires ready { ReaderReady self.now.tokens.now at depth table.old }
        requires token { IsAt (modal_token modality) self.now.tokens.now at }
        ensures { MatchResult result (λ d. Built a_part self.now.tokens.now at depth table.old table.new d.next d.root) (λ f. StopsAt a_part self.now.tokens.now at f.at) }
    {
        table.rise(at, depth + 1);
        let span = self.window(at + 1)?;
        let child = self.part(span.next, depth + 1, table)?;
        let root = table.push(modality.row(span.from, span.to, child.root));
        Ok(Done {
            next: child.next,
            root,
        })
    }

    // The rows and the depth of the tokens, if they are an expression.
    pub(crate) fn derive(&self) -> Result<Table, Stop>
        ensures { MatchResult result (λ t. Derived self.now.tokens.now t) (λ f. Fails self.now.tokens.now f.at) }
    {
        let mut table = Table::new();
        let all = self.expression(0, 0, &mut table)?;
        if all.next < self.tokens.len() {
            return Err(Stop { at: all.next });
        }
        Ok(table)
    }
}
