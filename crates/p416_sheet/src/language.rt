// P4_16 by how its tokens are written.
ghost use Rattle.p416_tok.specs.Front.{front};
ghost use Rattle.p416_spelling.specs.Spelled.{spells16, parts16, meets16, begins_line16};
ghost use Rattle.p416_spelling.proofs.Again.{is_spelling16};

use p416_tok::TokenKind16;
use token_sheet::Spelling;

/// P4_16, by how its tokens are written.
pub struct P416;

impl Spelling for P416 {
    type Kind = TokenKind16;

    ghost front = { front };

    ghost spells = { spells16 };

    ghost parts = { parts16 };

    ghost meets = { meets16 };

    ghost begins_line = { begins_line16 };

    fn parts(kind: TokenKind16, octets: &[u8], next: u8) -> bool {
        p416_spelling::parts(kind, octets, next)
    }

    fn meets(first: TokenKind16, second: TokenKind16) -> bool {
        p416_spelling::meets(first, second)
    }

    fn begins_line(kind: TokenKind16) -> bool {
        p416_spelling::begins_line(kind)
    }

    ghost is_spelling = { is_spelling16 };
}
