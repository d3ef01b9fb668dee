// What stands between two words.
ghost use Rattle.std.specs.Prelude.{◌≡◌, true, false};
ghost use Rattle.token_sheet.specs.Blanks.{may_follow, may_touch, AreEnough};

use crate::Spelling;

/// What stands in front of a word. Where the word would be one with the word before it, or has to begin a line, a blank stands
/// there in any case.
#[derive(Clone, Copy)]
pub enum Gap {
    /// Nothing.
    Nothing,
    /// A space.
    Space,
    /// A line feed, and four spaces for each level.
    Line(u8),
    /// A blank line: two line feeds, and four spaces for each level.
    Paragraph(u8),
}

/// Blanks: a line feed and further ones behind it, or none, and spaces.
#[derive(Clone, Copy)]
pub struct Blanks {
    pub line: bool,
    pub further: usize,
    pub spaces: usize,
}

/// The blanks that are asked for.
fn blanks_of(gap: Gap) -> Blanks {
    match gap {
        Gap::Nothing => Blanks {
            line: false,
            further: 0,
            spaces: 0,
        },
        Gap::Space => Blanks {
            line: false,
            further: 0,
            spaces: 1,
        },
        Gap::Line(level) => Blanks {
            line: true,
            further: 0,
            spaces: 4 * usize::from(level),
        },
        Gap::Paragraph(level) => Blanks {
            line: true,
            further: 1,
            spaces: 4 * usize::from(level),
        },
    }
}

/// Whether the last token, with these octets, is parted from what begins with this octet.
pub fn may_follow<L: Spelling>(last: Option<L::Kind>, octets: &[u8], next: u8) -> bool
    ensures { result ≡ may_follow L.parts last octets.now next }
{
    match last {
        None => true,
        Some(kind) => L::parts(kind, octets, next),
    }
}

/// Whether the language doesn't tell it where a token of this class touches the last one.
fn may_touch<L: Spelling>(last: Option<L::Kind>, kind: L::Kind) -> bool
    ensures { result ≡ may_touch L.meets last kind }
{
    match last {
        None => true,
        Some(last) => !L::meets(last, kind),
    }
}

/// The blanks in front of a token of this class, which begins with this octet, behind the last token, which has these octets.
pub fn blanks_before<L: Spelling>(
    gap: Gap,
    last: Option<L::Kind>,
    octets: &[u8],
    is_first: bool,
    kind: L::Kind,
    next: u8,
) -> Blanks
    requires { may_follow L.parts last octets.now 10 ≡ true }
    ensures { AreEnough L.parts L.meets L.begins_line last octets.now is_first kind next result }
{
    let wanted = blanks_of(gap);
    if wanted.line {
        return wanted;
    }
    if L::begins_line(kind) && !is_first {
        return line_feed();
    }
    if wanted.spaces == 0 && may_follow::<L>(last, octets, next) && may_touch::<L>(last, kind) {
        return wanted;
    }
    if may_follow::<L>(last, octets, b' ') {
        return space();
    }
    line_feed()
}

fn line_feed() -> Blanks
    ensures { result ≡ record { line = true; further = 0; spaces = 0 } }
{
    Blanks {
        line: true,
        further: 0,
        spaces: 0,
    }
}

fn space() -> Blanks
    ensures { result ≡ record { line = false; further = 0; spaces = 1 } }
{
    Blanks {
        line: false,
        further: 0,
        spaces: 1,
    }
}
