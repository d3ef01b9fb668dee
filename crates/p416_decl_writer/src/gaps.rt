// What stands in front of parts of declarations.
use p416_sheet::Gap;

/// The same, but without a blank line.
pub fn on_next_line(gap: Gap) -> Gap {
    match gap {
        Gap::Paragraph(level) => Gap::Line(level),
        other => other,
    }
}

/// What stands in front of a part that a blank line sets apart from what stands before it, where something does.
pub fn set_apart(level: u8, is_first: bool) -> Gap {
    if is_first {
        Gap::Line(level)
    } else {
        Gap::Paragraph(level)
    }
}

/// What stands in front of a closing brace: where nothing stands between the braces, a space.
pub fn closing(level: u8, is_empty: bool) -> Gap {
    if is_empty {
        Gap::Space
    } else {
        Gap::Line(level)
    }
}
