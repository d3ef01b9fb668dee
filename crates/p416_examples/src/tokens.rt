// The tokens of texts, told.
use p4x_bits::OutOfMemory;
use p416_syntax::Literal16;
use p416_tok::{Token16, TokenKind16, tokens16};
use std::alloc::Global;

fn put_decimal(out: &mut Vec<u8>, number: u128) -> Result<(), OutOfMemory> {
    out.extend_from_slice(itoa::Buffer::new().format(number).as_bytes())?;
    Ok(())
}

fn put_number(out: &mut Vec<u8>, number: Literal16) -> Result<(), OutOfMemory> {
    if let Some(width) = number.width {
        put_decimal(out, u128::from(width))?;
        out.push(b'w')?;
    }
    put_decimal(out, number.value)
}

/// Puts the token class of a token: of a number its width and its value, of others but names and strings their text.
fn put_kind(out: &mut Vec<u8>, kind: TokenKind16) -> Result<(), OutOfMemory> {
    let text = match kind {
        TokenKind16::Number(number) => return put_number(out, number),
        TokenKind16::Name => b"name".as_slice(),
        TokenKind16::Quoted => b"quoted".as_slice(),
        TokenKind16::Mark(mark) => mark.text(),
        TokenKind16::At(name) => name.text(),
        TokenKind16::Include(line) => line.text(),
    };
    out.extend_from_slice(text)?;
    Ok(())
}

/// Puts what a token is, its octets and its place.
fn put_token(out: &mut Vec<u8>, text: &[u8], token: &Token16) -> Result<(), OutOfMemory> {
    out.push(b' ')?;
    put_kind(out, token.kind)?;
    out.push(b' ')?;
    out.extend_from_slice(text.get(token.from..token.to).unwrap_or(b"?"))?;
    out.push(b' ')?;
    put_decimal(out, u128::from(token.place.line))?;
    out.push(b':')?;
    put_decimal(out, u128::from(token.place.column))
}

fn put_tokens(out: &mut Vec<u8>, text: &[u8], tokens: &[Token16]) -> Result<(), OutOfMemory> {
    for token in tokens {
        put_token(out, text, token)?;
    }
    Ok(())
}

fn are_told_as(alloc: Global, text: &[u8], tokens: &[Token16], wanted: &[u8]) -> bool {
    let mut told = Vec::new(alloc);
    put_tokens(&mut told, text, tokens).is_ok() && told.as_slice() == wanted
}

/// Whether the tokens of a text are told so.
pub fn has_tokens(alloc: Global, text: &[u8], wanted: &[u8]) -> bool {
    match &tokens16(alloc, text) {
        Ok(found) => are_told_as(alloc, text, found.as_slice(), wanted),
        Err(_) => false,
    }
}
