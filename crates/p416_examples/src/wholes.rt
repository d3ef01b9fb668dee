// Whole programs: three with each kind of declaration, statement and expression among them, which are written as they stand, and two
// that break no rule.
use crate::programs::{CONTROLLED, PARSED, PLAIN, PLAIN_WRITTEN, STATED, TRANSLATED};
use crate::writing::{is_program, is_written};

#[test]
fn programs_are_written_as_they_stand(rt: HostRuntime) {
    for text in [PARSED, CONTROLLED, STATED] {
        let is_so = is_written(rt.alloc(), text, text);
        assert!(rt; is_so);
    }
}

#[test]
fn programs_that_break_no_rule_are_written_and_read_back(rt: HostRuntime) {
    for (text, wanted) in [(PLAIN, PLAIN_WRITTEN), (TRANSLATED, TRANSLATED)] {
        let is_so = is_program(rt.alloc(), text, wanted);
        assert!(rt; is_so);
    }
}
