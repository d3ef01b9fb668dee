// Words that tell kinds.
use crate::lines::{cut, number_of};
use p4x_bits::OutOfMemory;
use p416_names::Kind;
use std::alloc::Global;

/// The kind that a word tells: a letter, and behind it a width, the name of a type, or that and the size of a stack.
pub fn kind_of(word: &[u8]) -> Kind<'_> {
    match word {
        [b'b', width @ ..] => Kind::Bits(number_of(width)),
        [b's', name @ ..] => Kind::Struct(name),
        [b'h', name @ ..] => Kind::Header(name),
        [b'k', stack @ ..] => {
            let (name, size) = cut(stack, b':');
            Kind::Stack(name, number_of(size))
        }
        [b't'] => Kind::Boolean,
        [b'e'] => Kind::ErrorCode,
        _ => Kind::Unknown,
    }
}

/// The kinds that words tell, with a comma between two.
pub fn kinds_of(alloc: Global, words: &[u8]) -> Result<Vec<Kind<'_>>, OutOfMemory> {
    let mut kinds = Vec::new(alloc);
    let mut left = words;
    for _ in 0..words.len() {
        let (word, more) = cut(left, b',');
        if !word.is_empty() {
            kinds.push(kind_of(word))?;
        }
        left = more;
    }
    Ok(kinds)
}
