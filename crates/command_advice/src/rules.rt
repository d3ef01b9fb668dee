// What the rules of a program ask, in words.

/// A rule of a program, and what was found where it is broken.
type Asked = (&'static str, &'static str);

/// The rules of the tokens and the grammar, those of declarations, parsers, tables, actions and controls of P4_14, and those of P4_16.
static PROGRAM_RULES: [Asked; 45] = [
    ("L1", "no token begins with this octet"),
    (
        "L2",
        "the comment, or the name of a line marker, isn't closed",
    ),
    (
        "L3",
        "the number is over 2^128 - 1, or its width isn't 1 to 128",
    ),
    ("L4", "the # line is no line marker"),
    ("S1", "no program has this here, or none ends here"),
    ("C1", "a name is declared twice"),
    (
        "C2",
        "a name is used that isn't declared so, or there is no state start or no control ingress",
    ),
    ("C3", "a width isn't 1 to 128"),
    (
        "C4",
        "the size or an index of a stack is out of range, an index is missing, or one stands where no stack is",
    ),
    (
        "C5",
        "the fields of a header type don't come to whole octets, or current reads no bit or goes past 128",
    ),
    (
        "C6",
        "latest stands in front of each extract of its state, or a select joins over 128 bits",
    ),
    (
        "C7",
        "there are over 65,536 fields, or the headers have over 32,768 octets",
    ),
    (
        "C8",
        "a field list holds itself, too much or a number without a width, or a calculated field is none that may be",
    ),
    ("C9", "a cycle of parser states extracts nothing"),
    (
        "C10",
        "the parser extracts headers in orders that contradict each other",
    ),
    (
        "C11",
        "a key is no field, or no header for valid, a valid key has a mask, or a table has over 64 keys",
    ),
    ("C12", "a table has two lpm keys"),
    (
        "C13",
        "a call has a wrong number of arguments or one of a wrong form, or a truth value stands for a number or the other way",
    ),
    (
        "C14",
        "what is extracted is no header, or a target can't be written",
    ),
    (
        "C15",
        "an action calls itself, or actions expand to too many primitives",
    ),
    (
        "C16",
        "a control calls itself, or the controls expand to too many statements",
    ),
    ("C17", "a table is applied in both pipelines"),
    (
        "C18",
        "a preserved list holds what is no metadata, or over 255 lists are preserved",
    ),
    ("C19", "a preserved field has an initial value"),
    (
        "C20",
        "payload isn't last in a list, or is in one that is hashed",
    ),
    (
        "C21",
        "the condition of a calculated field reads a calculated field",
    ),
    (
        "C22",
        "resubmit, recirculate or a clone is reached from the wrong pipeline",
    ),
    (
        "C23",
        "counters, meters or registers have no number of cells or too many, or a table has two direct counters",
    ),
    (
        "C24",
        "a default action isn't one of its table's, or has a wrong number of arguments",
    ),
    (
        "C25",
        "the program has something that is left out of P4_14 here",
    ),
    (
        "C26",
        "a minus sign stands in front of an operand of a condition",
    ),
    ("C27", "a parameter stands where none may"),
    ("C28", "blocks or an expression are over 64 deep"),
    (
        "T1",
        "a name is declared twice, or isn't declared as what stands here",
    ),
    (
        "T2",
        "a width isn't 1 to 128, a size isn't 1 to 256, a header has no whole octets, or a slice or an element is outside",
    ),
    (
        "T3",
        "an expression or a type isn't the one that its place asks for",
    ),
    ("T4", "a literal doesn't fit its width"),
    ("T5", "what is written can't be written"),
    ("T6", "a call has a wrong number of arguments"),
    (
        "T7",
        "a parser has no state start, or a cycle of its states extracts nothing",
    ),
    (
        "T8",
        "an action calls itself, or a table is applied inside an action or a key",
    ),
    (
        "T9",
        "a table, an action, a switch or a direct counter isn't of a form that is taken, or two have one name for entries",
    ),
    (
        "T10",
        "a call stands in a block that doesn't allow it, or next or last of a stack outside a parser",
    ),
    ("T11", "main hasn't the six blocks with their parameters"),
    (
        "T12",
        "there are too many fields, octets of headers, cells or levels, or an object has no cell",
    ),
];

/// What a rule of the program asks; none where the rule is of another file.
pub fn program_words(rule: &str) -> Option<&'static str> {
    for (name, words) in &PROGRAM_RULES {
        if rule == *name {
            return Some(*words);
        }
    }
    None
}
