ghost use Rattle.std.specs.Prelude.{◌≤◌, length};
ghost use Rattle.sql_tree.specs.Lexes.{Lexes};
ghost use Rattle.query_meaning.specs.Lexing.{spans_of};

use crate::classes::is_space;
use crate::cuts::cut_at;
use crate::token::{LexFault, Token, Tokens};
use std::alloc::Global;

/// The tokens of the text, by longest match from left to right.
pub fn tokens(alloc: Global, text: &str) -> Result<Tokens, LexFault>
    requires { length text.now ≤ 65_536 }
    ensures { Lexes (spans_of text.now) result }
{
    let bytes = text.as_bytes();
    let mut all = Tokens::new(alloc);
    let mut place = 0;
    'places: while place < bytes.len() {
        if is_space(bytes[place]) {
            place += 1;
            continue;
        }
        match cut_at(&bytes[place..]) {
            Err(behind) => return Err(LexFault::BadToken((place + behind) as u32)),
            Ok((kind, length)) => {
                let to = place + length;
                all.push(Token {
                    kind,
                    from: place as u32,
                    to: to as u32,
                })?;
                place = to;
            }
        }
    }
    Ok(all)
}

#[cfg(test)]
mod tests {
    use super::*;
    use query_meaning::TokenKind;

    #[test]
    fn takes_tokens(rt: HostRuntime) {
        let text = "SELECT \"a\"\"b\", 'it''s' <>`2024-05-01T10:00:00Z` 17)";
        let Ok(found) = tokens(rt.alloc(), text) else {
            return
        };
        let wanted = [
            (TokenKind::Word, 0, 6),
            (TokenKind::Quoted, 7, 13),
            (TokenKind::Sign, 13, 14),
            (TokenKind::Str, 15, 22),
            (TokenKind::Sign, 23, 25),
            (TokenKind::Moment, 25, 47),
            (TokenKind::Number, 48, 50),
            (TokenKind::Sign, 50, 51),
        ];
        assert_eq!(rt; found.len(), wanted.len());
        for (at, (kind, from, to)) in wanted.iter().copied().enumerate() {
            assert_eq!(rt; found.get(at).copied(), Some(Token { kind, from, to }));
        }
    }

    #[test]
    fn names_faults(rt: HostRuntime) {
        for (text, place) in [
            ("SELECT a--b FROM t", 8),
            ("SELECT 1.5 FROM logs", 8),
            ("SELECT 9223372036854775808 FROM t", 7),
            ("SELECT 12x FROM t", 9),
            ("SELECT 'a''b", 10),
            ("SELECT \"\" FROM t", 7),
            ("SELECT `2024-05-01` FROM t", 7),
            ("SELECT a ! b FROM t", 9),
            ("SELECT \u{e9} FROM t", 7),
        ] {
            let Err(LexFault::BadToken(found)) = tokens(rt.alloc(), text) else {
                assert!(rt; false);
                return;
            };
            assert_eq!(rt; found, place);
        }
    }
}
